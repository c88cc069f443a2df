// Loops that wait, leapt over in whole rounds up to the next event.
ghost use Rattle.std.specs.Prelude.{◌≡◌, ◌≤◌, ◌<◌, ◌+◌, ℕ, None, false, true, IfSome};
ghost use Rattle.avr_decoder.specs.declared.op.Op.TheVariants as variant;
ghost use Rattle.air_base.specs.Bounds.{LAST_CYCLE};
ghost use Rattle.board_io.specs.Lines.{lines_of};
ghost use Rattle.node_core.specs.Inside.{MayAct, is_told};
ghost use Rattle.node_core.specs.Pace.Leaps.{GoesOnBy, IsLoad, IsRound, IsStill, IsStillStep, is_steering};
ghost use Rattle.node_core.specs.Pace.Midway.{IsSprinted};
ghost use Rattle.serial_ports.specs.Script.{script_byte};

use crate::NodeBus;
use crate::machine::Machine;
use crate::processor::{due, owes};
use avr_base::{ByteBits, IO_START};
use avr_core::execute_waiting;
use avr_decoder::{Class, Op};
use data_space::{Bus, Cpu};

// How many instructions a round has at most that is looked for.
pub const LONGEST: u64 = 8;

/// A round of a loop, from an instruction up to the same.
#[derive(Clone, Copy)]
pub struct Round {
    /// Its cycles.
    pub length: u64,
    /// Its instructions.
    pub count: u64,
}

// Whether an instruction is a jump, a branch or a skip by the core alone.
fn is_steering(op: &Op) -> bool
    ensures { result ≡ is_steering op.now }
{
    match op {
        Op::Rjmp { .. }
        | Op::Brbs { .. }
        | Op::Brbc { .. }
        | Op::Cpse { .. }
        | Op::Sbrs { .. }
        | Op::Sbrc { .. } => true,
        _ => false,
    }
}

// The data address of an instruction that loads one byte from an address of its own.
#[inline(always)]
fn load_of(op: &Op) -> Option<u16>
    ensures { IfSome result (λ at. IsLoad op.now at) }
{
    match *op {
        Op::Sbis { a, .. } => Some(u16::from(a) + IO_START),
        Op::Sbic { a, .. } => Some(u16::from(a) + IO_START),
        Op::InIo { a, .. } => Some(u16::from(a) + IO_START),
        Op::Lds { k, .. } => Some(k),
        _ => None,
    }
}

// Whether an instruction is SBIS or SBIC of a device's register that goes on with the next word where that has this byte.
fn goes_on_by(op: &Op, byte: u8) -> bool
    ensures { result ≡ true → GoesOnBy op.now byte }
{
    let bits = ByteBits { byte };
    match *op {
        Op::Sbis { a, b } => a < 0x20 && !bits.has(b % 8),
        Op::Sbic { a, b } => a < 0x20 && bits.has(b % 8),
        _ => false,
    }
}

// Whether an instruction is RJMP by so many words.
fn is_jump_by(op: &Op, words: i16) -> bool
    ensures { result ≡ true → op.now ≡ variant.Rjmp words }
{
    match *op {
        Op::Rjmp { k } => k == words,
        _ => false,
    }
}

// Whether an instruction changes the core alone, and does so in the same way in each cycle up to the next event.
fn is_still(op: &Op, bus: &NodeBus) -> bool
    ensures { result ≡ true → IsStill op.now bus.now }
{
    if is_steering(op) {
        return true;
    }
    if let Some(at) = load_of(op) {
        return bus.reads_still(at);
    }
    matches!(op.class(), Class::Arith)
}

impl Machine {
    // Executes the instruction at the program counter of `core` on it, if it is still and nothing is due: how many
    // cycles it takes, 0 where it is another.
    pub fn step_still(&mut self, core: &mut Cpu) -> u8
        ensures same { self.new ≡ self.old }
        ensures step { 0 < result → IsStillStep result self.old core.old core.new }
        ensures flags { 0 < result → core.old.sreg.bits < 256 }
    {
        let op = self.program.op_at(self.program.slots(), core.pc);
        if !is_still(op, &self.bus) || due(core.sreg, &self.bus.io).is_some() {
            return 0;
        }
        let before = core.sreg.bits;
        match execute_waiting(op, &self.program, core, &mut self.bus) {
            Ok(done) => {
                if owes(op, before, core.sreg.bits) {
                    return 0;
                }
                done.cycles
            }
            Err(_) => 0,
        }
    }

    // The round that begins at the program counter, after which all is as it was but for the cycle and the count.
    fn round(&mut self) -> Option<Round>
        ensures same { self.new ≡ self.old }
        ensures round { IfSome result (λ r. IsRound self.old r) }
    {
        let mut core = self.cpu;
        let mut round = Round {
            length: 0,
            count: 0,
        };
        while round.count < LONGEST {
            let taken = self.step_still(&mut core);
            if taken == 0 {
                return None;
            }
            round.length += u64::from(taken);
            round.count += 1;
            if core.pc == self.cpu.pc {
                return if core == self.cpu { Some(round) } else { None };
            }
        }
        None
    }

    // The round of SBIS or SBIC that begins at the program counter and goes on to RJMP back to it, as most polls do: found
    // for half of what `round` takes.
    #[inline(always)]
    fn bit_round(&mut self) -> Option<Round>
        ensures same { self.new ≡ self.old }
        ensures round { IfSome result (λ r. IsRound self.old r) }
    {
        let pc = self.cpu.pc;
        if !is_jump_by(&self.program.op(pc.wrapping_add(1)), -2) {
            return None;
        }
        let op = self.program.op(pc);
        let Some(at) = load_of(&op) else {
            return None;
        };
        if !self.bus.reads_still(at) || due(self.cpu.sreg, &self.bus.io).is_some() {
            return None;
        }
        let Ok(byte) = self.bus.get(at) else {
            return None;
        };
        if goes_on_by(&op, byte) {
            Some(Round {
                length: 3,
                count: 2,
            })
        } else {
            None
        }
    }

    // A round that begins at the program counter and leaves all as it was but for the cycle and the count.
    fn any_round(&mut self) -> Option<Round>
        ensures same { self.new ≡ self.old }
        ensures round { IfSome result (λ r. IsRound self.old r) }
    {
        let short = self.bit_round();
        if short.is_some() {
            return short;
        }
        self.round()
    }

    // Where a loop begins at the program counter that leaves all as it is but for the cycle and the count of
    // instructions, as a poll does, its rounds from `cycle` on that end by `end` and before the next event are taken at
    // once. How many cycles it were, 0 where there is no such loop.
    #[inline(never)]
    fn poll(&mut self, cycle: u64, end: u64) -> u64
        requires may { MayAct cycle self.old }
        requires untold { (i : ℕ) → cycle + i < end → is_told self.old.from self.old.to (cycle + i) ≡ false }
        requires within { cycle ≤ end }
        requires early { end ≤ LAST_CYCLE }
        requires none { (i : ℕ) → cycle + i < end → script_byte self.old.script (cycle + i) ≡ None }
        ensures sprinted { IsSprinted cycle (cycle + result) false self.old self.new }
        ensures others { self.new ≡ record self.old { bus = self.new.bus; count = self.new.count } }
        ensures lines { lines_of self.new.bus.io.board ≡ lines_of self.old.bus.io.board }
        ensures flags { self.new.cpu.sreg ≡ self.old.cpu.sreg }
        ensures within { cycle + result ≤ end }
    {
        if self.owed {
            return 0;
        }
        let Some(round) = self.any_round() else {
            return 0;
        };
        let rounds = self.bus.io.leap_rounds(end - cycle, round.length);
        self.count += rounds * round.count;
        rounds * round.length
    }

    /// The rounds from `cycle` on of a loop that waits, where one begins at the program counter: those that end by
    /// `end` and before the next event, at once. How many cycles it were, 0 where there is no such loop.
    #[inline(never)]
    pub fn leap(&mut self, cycle: u64, end: u64) -> u64
        requires may { MayAct cycle self.old }
        requires untold { (i : ℕ) → cycle + i < end → is_told self.old.from self.old.to (cycle + i) ≡ false }
        requires within { cycle ≤ end }
        requires early { end ≤ LAST_CYCLE }
        requires none { (i : ℕ) → cycle + i < end → script_byte self.old.script (cycle + i) ≡ None }
        ensures sprinted { IsSprinted cycle (cycle + result) false self.old self.new }
        ensures others { self.new ≡ record self.old { cpu = self.new.cpu; bus = self.new.bus; count = self.new.count } }
        ensures lines { lines_of self.new.bus.io.board ≡ lines_of self.old.bus.io.board }
        ensures flags { self.new.cpu.sreg ≡ self.old.cpu.sreg }
        ensures within { cycle + result ≤ end }
    {
        match self.program.op(self.cpu.pc) {
            Op::Rjmp { .. }
            | Op::Sbis { .. }
            | Op::Sbic { .. }
            | Op::InIo { .. }
            | Op::Lds { .. } => self.poll(cycle, end),
            Op::Dec { .. } | Op::Sbiw { .. } | Op::Subi { .. } => self.count_down(cycle, end),
            _ => 0,
        }
    }
}
