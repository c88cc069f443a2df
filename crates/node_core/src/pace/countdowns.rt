// Loops that count a number down and do nothing else, as a delay loop does.
ghost use Rattle.std.specs.Prelude.{◌≡◌, ◌≤◌, ◌<◌, ◌+◌, ◌*◌, ◌%◌, ℕ, None, false, true, length, slice_index, IfSome};
ghost use Rattle.air_base.specs.Bounds.{LAST_CYCLE};
ghost use Rattle.board_io.specs.Lines.{lines_of};
ghost use Rattle.node_core.specs.Inside.{MayAct, is_told};
ghost use Rattle.node_core.specs.Pace.Leaps.{IsBeside, IsCountdown, IsLongLowering, IsLowering, counter_at, spared, with_counter};
ghost use Rattle.node_core.specs.Pace.Midway.{IsSprinted};
ghost use Rattle.serial_ports.specs.Script.{script_byte};

use crate::machine::Machine;
use crate::pace::leaps::{LONGEST, Round};
use avr_base::Reg;
use avr_decoder::Op;
use data_space::Cpu;

/// A loop counter of two bytes, which instructions lower by one.
#[derive(Clone, Copy)]
pub struct Lowering {
    /// The register of its low byte.
    pub low: Reg,
    /// The register of its high byte, another.
    pub high: Reg,
    /// How many times in a row the instructions do so in the same way, as far as is known.
    pub spare: u16,
}

// How many rounds are left at least where a trial is worth its time.
const FEW: u16 = 4;

/// A round that lowers a loop counter by one.
#[derive(Clone, Copy)]
pub struct Countdown {
    /// The counter.
    pub lowering: Lowering,
    /// The round.
    pub round: Round,
}

// The loop counter in two registers.
fn counter(low: Reg, high: Reg, core: &Cpu) -> u16
    ensures value { result ≡ counter_at low high core.now }
    ensures byte { slice_index core.now.r low < 256 }
    ensures low_there { low < length core.now.r }
    ensures high_there { high < length core.now.r }
{
    let low = core.r[usize::from(low.get())];
    let high = core.r[usize::from(high.get())];
    u16::from(low) + 256 * u16::from(high)
}

// Puts it there.
fn put_counter(low: Reg, high: Reg, value: u16, core: &mut Cpu)
    ensures { core.new ≡ with_counter low high value core.old }
{
    core.set_reg(low, (value % 256) as u8);
    core.set_reg(high, (value / 256) as u8);
}

// The register above, r0 above r31.
fn above(d: Reg) -> Reg
    ensures { result ≡ (d + 1) % 32 }
{
    Reg::numbered((d.get() + 1) % 32)
}

// How often a number can be lowered by one while it is not 0 afterwards, and stays on its side of `half`.
fn spared(value: u16, half: u16) -> u16
    ensures { result ≡ spared half value }
{
    if value >= half {
        value - half
    } else {
        value.saturating_sub(1)
    }
}

// DEC and SUBI by one, which leave the register above, and SBIW by one. The flags of SUBI stay the same while the lower
// four bits do not come to 0, which a half carry follows.
fn lowered_by(op: &Op, core: &Cpu) -> Option<Lowering>
    ensures { IfSome result (λ l. IsLowering op.now core.now l) }
{
    match *op {
        Op::Dec { d } => {
            let spare = spared(u16::from(core.reg(d)), 0x80);
            let high = above(d);
            Some(Lowering {
                low: d,
                high,
                spare,
            })
        }
        Op::Subi { d, k } => {
            if k != 1 {
                return None;
            }
            let high = above(d);
            let spare = u16::from(core.reg(d) % 16).saturating_sub(1);
            Some(Lowering {
                low: d,
                high,
                spare,
            })
        }
        Op::Sbiw { d, k } => {
            if k != 1 {
                return None;
            }
            let high = above(d);
            let spare = spared(counter(d, high, core), 0x8000);
            Some(Lowering {
                low: d,
                high,
                spare,
            })
        }
        _ => None,
    }
}

// SUBI by one and SBCI of 0 of another register behind it, as of a number of two bytes or more. What they leave of the
// flags is the same while the four highest bits stay: no half carry, which the borrow from a low digit 0 of the high byte
// would be, and none of the others.
fn long_lowered_by(op: &Op, next: &Op, core: &Cpu) -> Option<Lowering>
    ensures { IfSome result (λ l. IsLongLowering op.now next.now core.now l) }
{
    let Op::Subi { d, k } = *op else {
        return None;
    };
    let Op::Sbci { d: high, k: none } = *next else {
        return None;
    };
    if k != 1 || none != 0 || high.get() == d.get() {
        return None;
    }
    let value = counter(d, high, core);
    let spare = (value % 0x1000).saturating_sub(1);
    Some(Lowering {
        low: d,
        high,
        spare,
    })
}

// Whether SBCI follows SUBI, as where the number has two bytes or more. Nothing rests on it: it chooses where to look.
fn is_low_byte(op: &Op, next: &Op) -> bool {
    matches!(op, Op::Subi { .. }) && matches!(next, Op::Sbci { .. })
}

// Whether what an instruction does has nothing to do with the registers `low` and `high`.
fn is_beside(op: &Op, low: Reg, high: Reg) -> bool
    ensures { result ≡ true → IsBeside low high op.now }
{
    match *op {
        Op::Nop => true,
        Op::Rjmp { .. } => true,
        Op::Brbs { .. } => true,
        Op::Brbc { .. } => true,
        Op::Sbci { d, .. } => (d.get() != low.get()) & (d.get() != high.get()),
        _ => false,
    }
}

impl Machine {
    // Executes on `core` the first two instructions of a round that lowers a loop counter.
    fn lower_long(&mut self, core: &mut Cpu) -> Option<Countdown>
        ensures same { self.new ≡ self.old }
        ensures lowers { IfSome result (λ c. IsCountdown self.old core.old core.new c) }
        ensures one { IfSome result (λ c. c.round.count ≤ 2) }
    {
        let op = self.program.op(core.pc);
        let from = *core;
        let first = self.step_still(core);
        let next = self.program.op(core.pc);
        let second = self.step_still(core);
        if first == 0 || second == 0 {
            return None;
        }
        let Some(lowering) = long_lowered_by(&op, &next, &from) else {
            return None;
        };
        let length = u64::from(first) + u64::from(second);
        let round = Round { length, count: 2 };
        Some(Countdown { lowering, round })
    }

    // Executes on `core` the first instruction of a round that lowers a loop counter, or the first two.
    fn lower(&mut self, core: &mut Cpu) -> Option<Countdown>
        ensures same { self.new ≡ self.old }
        ensures lowers { IfSome result (λ c. IsCountdown self.old core.old core.new c) }
        ensures one { IfSome result (λ c. c.round.count ≤ 2) }
    {
        let op = self.program.op(core.pc);
        if is_low_byte(&op, &self.program.op(core.pc.wrapping_add(1))) {
            return self.lower_long(core);
        }
        let Some(lowering) = lowered_by(&op, core) else {
            return None;
        };
        // what is left of so few rounds is executed for less than they are looked for
        if lowering.spare < FEW {
            return None;
        }
        let length = u64::from(self.step_still(core));
        if length == 0 {
            return None;
        }
        let round = Round { length, count: 1 };
        Some(Countdown { lowering, round })
    }

    // The round that begins at the program counter, which lowers a loop counter and leaves all else.
    fn countdown(&mut self) -> Option<Countdown>
        ensures same { self.new ≡ self.old }
        ensures lowers { IfSome result (λ c. IsCountdown self.old self.old.cpu self.old.cpu c) }
        ensures turns { IfSome result (λ c. c.round.count ≤ 8) }
    {
        let head = self.cpu;
        let mut core = self.cpu;
        let Some(Countdown { lowering, round }) = self.lower(&mut core) else {
            return None;
        };
        let Lowering { low, high, .. } = lowering;
        let mut length = round.length;
        let mut count = round.count;
        while count < LONGEST {
            let op = self.program.op(core.pc);
            if !is_beside(&op, low, high) {
                return None;
            }
            let taken = self.step_still(&mut core);
            if taken == 0 {
                return None;
            }
            length += u64::from(taken);
            count += 1;
            if core.pc == head.pc {
                put_counter(low, high, counter(low, high, &head), &mut core);
                let round = Round { length, count };
                return if core == head {
                    Some(Countdown { lowering, round })
                } else {
                    None
                };
            }
        }
        None
    }

    /// Where a loop begins at the program counter that lowers a loop counter by one and leaves all else as it is but
    /// for the cycle and the count of instructions, its rounds from `cycle` on that end by `end` and before the next
    /// event are taken at once, while the counter does not come to 0. How many cycles it were, 0 where there is no such
    /// loop.
    #[inline(never)]
    pub fn count_down(&mut self, cycle: u64, end: u64) -> u64
        requires may { MayAct cycle self.old }
        requires untold { (i : ℕ) → cycle + i < end → is_told self.old.from self.old.to (cycle + i) ≡ false }
        requires within { cycle ≤ end }
        requires early { end ≤ LAST_CYCLE }
        requires none { (i : ℕ) → cycle + i < end → script_byte self.old.script (cycle + i) ≡ None }
        ensures sprinted { IsSprinted cycle (cycle + result) false self.old self.new }
        ensures others { self.new ≡ record self.old { cpu = self.new.cpu; bus = self.new.bus; count = self.new.count } }
        ensures lines { lines_of self.new.bus.io.board ≡ lines_of self.old.bus.io.board }
        ensures flags { self.new.cpu.sreg ≡ self.old.cpu.sreg }
        ensures within { cycle + result ≤ end }
    {
        if self.owed {
            return 0;
        }
        let Some(Countdown { lowering, round }) = self.countdown() else {
            return 0;
        };
        let Lowering { low, high, spare } = lowering;
        let most = (end - cycle).min(u64::from(spare) * round.length);
        let rounds = self.bus.io.leap_rounds(most, round.length);
        let value = counter(low, high, &self.cpu);
        put_counter(low, high, value - rounds as u16, &mut self.cpu);
        self.count += rounds * round.count;
        rounds * round.length
    }
}
