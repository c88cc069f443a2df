// The instructions that load from the flash. They have no access that could stop.
ghost use Rattle.std.specs.Prelude.{◌≡◌, ◌<◌, false};
ghost use Rattle.data_space.specs.Core.{advanced, general, registers_of, whole};
ghost use Rattle.avr_core.specs.MemoryShapes.{extended_z, loads_extended, loads_extended_post_increment, loads_program, loads_program_post_increment, with_extended_z};

use crate::accesses::{displaced, retire};
use avr_base::Reg;
use data_space::{Core, Done, Registers, pair, set_pair, set_reg};
use ihex_loader::Flash;

// Bytes of the flash, and of its half that Z alone can name.
const FLASH: u32 = 0x2_0000;

const HALF: u32 = 0x1_0000;

// The pointer Z, by its lower register.
#[inline]
fn z() -> Reg
    ensures { result ≡ 30 }
{
    Reg::numbered(30)
}

// The byte address that RAMPZ and Z name.
#[inline]
fn extended_z(regs: &Registers) -> u32
    ensures value { result ≡ extended_z (general regs.now) }
    ensures within { result < 131072 }
{
    let half = if regs.rampz { HALF } else { 0 };
    half + u32::from(pair(regs, z()))
}

#[inline]
fn set_extended_z(at: u32, regs: &mut Registers)
    requires { at < 131072 }
    ensures { regs.new ≡ registers_of (with_extended_z at (general regs.old)) }
{
    set_pair(regs, z(), (at % HALF) as u16);
    regs.rampz = at >= HALF;
}

/// LPM rD, Z: the byte of the flash at the byte address in Z. Three cycles.
#[inline]
pub fn load_program(d: Reg, flash: &Flash, regs: &mut Registers, core: &mut Core) -> Done
    ensures core { whole regs.new core.new ≡ advanced 1 (loads_program flash.now.bytes d (whole regs.old core.old)) }
    ensures reported { result ≡ record { cycles = 3; sleep = false } }
{
    let at = u32::from(pair(regs, z()));
    set_reg(regs, d, flash.byte(at));
    retire(1, 3, core)
}

/// LPM rD, Z+: Z goes on by one, modulo 65,536. Three cycles.
#[inline]
#[tactic(auto, unfolding(crate::specs::MemoryShapes::loads_program_post_increment))]
pub fn load_program_post_increment(
    d: Reg,
    flash: &Flash,
    regs: &mut Registers,
    core: &mut Core,
) -> Done
    ensures core { whole regs.new core.new ≡ advanced 1 (loads_program_post_increment flash.now.bytes d (whole regs.old core.old)) }
    ensures reported { result ≡ record { cycles = 3; sleep = false } }
{
    let next = displaced(z(), 1, regs);
    let at = u32::from(pair(regs, z()));
    set_reg(regs, d, flash.byte(at));
    set_pair(regs, z(), next);
    retire(1, 3, core)
}

/// ELPM rD, Z: the byte of the flash at the byte address in RAMPZ and Z, 0 to 131,071. Three cycles.
#[inline]
pub fn load_extended(d: Reg, flash: &Flash, regs: &mut Registers, core: &mut Core) -> Done
    ensures core { whole regs.new core.new ≡ advanced 1 (loads_extended flash.now.bytes d (whole regs.old core.old)) }
    ensures reported { result ≡ record { cycles = 3; sleep = false } }
{
    let at = extended_z(regs);
    set_reg(regs, d, flash.byte(at));
    retire(1, 3, core)
}

/// ELPM rD, Z+: RAMPZ and Z together go on by one, modulo 131,072. Three cycles.
#[inline]
#[tactic(auto, unfolding(crate::specs::MemoryShapes::loads_extended_post_increment))]
pub fn load_extended_post_increment(
    d: Reg,
    flash: &Flash,
    regs: &mut Registers,
    core: &mut Core,
) -> Done
    ensures core { whole regs.new core.new ≡ advanced 1 (loads_extended_post_increment flash.now.bytes d (whole regs.old core.old)) }
    ensures reported { result ≡ record { cycles = 3; sleep = false } }
{
    let at = extended_z(regs);
    set_reg(regs, d, flash.byte(at));
    set_extended_z((at + 1) % FLASH, regs);
    retire(1, 3, core)
}
