// The registers of the core, in two parts on which instructions work, and as one.
ghost use Rattle.std.specs.Prelude.{◌≡◌, ◌+◌, ◌%◌, slice_index, slice_set};
ghost use Rattle.data_space.specs.Core.{core_of, general, pair_at, registers_of, whole, with_pair};

use avr_base::{Reg, Sreg};

/// The registers of the AVR core (ATmega128 datasheet, "AVR CPU Core") beside SREG and the program counter: the general
/// ones, the stack pointer and RAMPZ.
#[derive(Clone, Copy, PartialEq, Eq)]
pub struct Registers {
    /// The general registers r0 to r31, data addresses 0x0000 to 0x001F.
    pub r: [u8; 32],
    /// The stack pointer SPH:SPL, a data address; itself at data addresses 0x005D (low byte) and 0x005E.
    pub sp: u16,
    /// Bit 0 of RAMPZ, data address 0x005B: the upper half of the flash for ELPM.
    pub rampz: bool,
}

/// SREG and the program counter of the AVR core, which nearly each instruction changes. They stand apart so that a loop
/// over instructions keeps both in registers of the host. It cannot where a call takes their address: so the functions
/// of its instructions that take a reference to them are inlined.
#[derive(Clone, Copy, PartialEq, Eq)]
pub struct Core {
    /// The status register SREG, data address 0x005F.
    pub sreg: Sreg,
    /// The program counter, a word address of the flash. It wraps at 65,536.
    pub pc: u16,
}

impl Core {
    /// Moves the program counter on by `words`, modulo 65,536. Nothing else changes.
    #[inline]
    pub fn advance(&mut self, words: u16)
        ensures { self.new ≡ record self.old { pc = (self.old.pc + words) % 65536 } }
    {
        self.pc = self.pc.wrapping_add(words);
    }
}

/// The byte in general register `d`.
#[inline]
pub fn reg(regs: &Registers, d: Reg) -> u8
    ensures { result ≡ slice_index regs.now.r d }
{
    regs.r[usize::from(d.get())]
}

/// Puts a byte into general register `d`. Nothing else changes.
#[inline]
pub fn set_reg(regs: &mut Registers, d: Reg, value: u8)
    ensures { regs.new ≡ record regs.old { r = slice_set regs.old.r d value } }
{
    regs.r[usize::from(d.get())] = value;
}

/// The word in the pair of register `d`, which has its low byte, and of the register above (r0 above r31). The pointers
/// X, Y and Z are the pairs at r26, r28 and r30.
#[inline]
pub fn pair(regs: &Registers, d: Reg) -> u16
    ensures { result ≡ pair_at d (general regs.now) }
{
    u16::from(reg(regs, d)) + 256 * u16::from(reg(regs, above(d)))
}

/// Puts a word into the pair at register `d`, its low byte first. Nothing else changes.
#[inline]
pub fn set_pair(regs: &mut Registers, d: Reg, value: u16)
    ensures { regs.new ≡ registers_of (with_pair d value (general regs.old)) }
{
    set_reg(regs, d, (value % 256) as u8);
    set_reg(regs, above(d), (value / 256) as u8);
}

/// The registers of the AVR core (ATmega128 datasheet, "AVR CPU Core"): all that an instruction changes beside the bus.
#[derive(Clone, Copy, PartialEq, Eq)]
pub struct Cpu {
    /// The general registers.
    pub r: [u8; 32],
    /// The status register SREG, data address 0x005F.
    pub sreg: Sreg,
    /// The stack pointer SPH:SPL, a data address; itself at data addresses 0x005D (low byte) and 0x005E.
    pub sp: u16,
    /// The program counter, a word address of the flash. It wraps at 65,536.
    pub pc: u16,
    /// Bit 0 of RAMPZ, data address 0x005B: the upper half of the flash for ELPM.
    pub rampz: bool,
}

impl Cpu {
    ghost use Rattle.std.specs.Prelude.{slice_index};
    ghost use Rattle.data_space.specs.Core.{with_reg, zero_cpu};

    /// The core after reset: all registers, SREG, the stack pointer, the program counter and RAMPZ are 0.
    pub fn new() -> Self
        ensures { result ≡ zero_cpu }
    {
        Cpu {
            r: [0; 32],
            sreg: Sreg { bits: 0 },
            sp: 0,
            pc: 0,
            rampz: false,
        }
    }

    /// The byte in general register `d`.
    #[inline]
    pub fn reg(&self, d: Reg) -> u8
        ensures { result ≡ slice_index self.now.r d }
    {
        self.r[usize::from(d.get())]
    }

    /// Puts a byte into general register `d`. Nothing else changes.
    #[inline]
    pub fn set_reg(&mut self, d: Reg, value: u8)
        ensures { self.new ≡ with_reg d value self.old }
    {
        self.r[usize::from(d.get())] = value;
    }

    /// The two parts.
    #[inline]
    pub fn parts(&self) -> (Registers, Core)
        ensures { result ≡ (registers_of self.now, core_of self.now) }
    {
        let registers = Registers {
            r: self.r,
            sp: self.sp,
            rampz: self.rampz,
        };
        let core = Core {
            sreg: self.sreg,
            pc: self.pc,
        };
        (registers, core)
    }

    /// The registers with these two parts.
    #[inline]
    pub fn of_parts(regs: &Registers, core: Core) -> Cpu
        ensures { result ≡ whole regs.now core }
    {
        Cpu {
            r: regs.r,
            sreg: core.sreg,
            sp: regs.sp,
            pc: core.pc,
            rampz: regs.rampz,
        }
    }
}

// The register above `d`, r0 above r31.
#[inline]
fn above(d: Reg) -> Reg
    ensures { result ≡ (d + 1) % 32 }
{
    Reg::numbered((d.get() + 1) % 32)
}

impl Default for Cpu {
    ghost use Rattle.data_space.specs.Core.{zero_cpu};

    ghost is_default = { λ cpu. cpu ≡ zero_cpu };

    fn default() -> Self {
        Cpu::new()
    }
}
