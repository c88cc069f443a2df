// Instructions of a node, one behind another, while nothing is due.
ghost use Rattle.std.specs.Prelude.{◌≡◌, ◌≤◌, ◌<◌, ◌+◌, nat_le, nat_lt, ℕ, None, true, false, IfSome};
ghost use Rattle.air_base.specs.Bounds.{LAST_CYCLE, LAST_END};
ghost use Rattle.board_io.specs.Lines.{lines_of};
ghost use Rattle.board_io.specs.Lagging.{IsUneventful};
ghost use Rattle.node_core.specs.Inside.{MayAct, is_told};
ghost use Rattle.node_core.specs.Interrupts.{due};
ghost use Rattle.node_core.specs.Pace.Midway.{IsSprinted, IsSprinting, IsStep, IsStepped, MayEnd, beside, counted, leaves_board, leaves_i, over, owing, step_of};
ghost use Rattle.node_core.specs.Shown.{shown};
ghost use Rattle.node_core.specs.declared.machine.Machine.{Machine};
ghost use Rattle.avr_program.specs.Program.{slots_below};
ghost use Rattle.serial_ports.specs.Script.{script_byte};

use crate::NodeBus;
use crate::machine::Machine;
use avr_base::StopCause;
use avr_core::{After, execute_plain};
use avr_program::{Program, Slot};
use data_space::{Core, Cpu, Done, Registers};

/// Where a sprint ended: at the beginning of the cycle `at`, or in the middle of it, of which the processor's part is
/// done.
#[derive(Clone, Copy)]
pub struct Sprinted {
    pub at: u64,
    pub inside: bool,
}

/// What a step of a sprint did.
#[derive(Clone, Copy)]
pub enum Step {
    /// It executed an instruction of one cycle, which left the flag I and the devices as they were.
    Single,
    /// Such an instruction of so many cycles.
    Plain { taken: u8 },
    /// Such an instruction of so many cycles, after which the program may go on a few words further back.
    Jumped { taken: u8 },
    /// An instruction of so many cycles that loaded a byte, maybe of a device, and left the flag I as it was.
    Loaded { taken: u8 },
    /// An instruction of so many cycles that stored a byte, maybe to a device or to SREG, or set or cleared a flag.
    Stored { taken: u8 },
    /// SEI or RETI, of so many cycles.
    Enabled { taken: u8 },
    /// The instruction stopped.
    Stopped { cause: StopCause },
    /// It left an instruction that is none of a sprint's.
    Left,
}

// How many short jumps back are passed by at most behind one at which no loop waits.
const MOST_UNSEEN: u8 = 31;

// How many cycles a leap passes at least that takes less than to execute them: a trial takes as long as some twenty
// instructions.
const WORTH: u64 = 32;

// Whether the flag I is on, the highest of SREG.
#[inline]
fn is_on(sreg: u8) -> bool
    ensures { result ≡ nat_le 128 sreg }
{
    sreg >= 128
}

// The cycle up to which nothing happens, as far as what runs now tells, of those up to `end`; 0 where a line is up.
#[inline(always)]
fn clear_to(bus: &NodeBus, end: u64) -> u64
    ensures within { result ≤ end }
    ensures calm { IsUneventful result bus.now.io }
    ensures down { bus.now.io.clock < result → (lines_of bus.now.io.board).bits ≡ 0 }
{
    end.min(bus.io.clear())
}

// That cycle, be a line up or not.
#[inline(always)]
fn calm_to(bus: &NodeBus, end: u64) -> u64
    ensures within { result ≤ end }
    ensures calm { IsUneventful result bus.now.io }
{
    end.min(bus.io.calm())
}

// Counts an instruction that was executed, and says what the step did.
#[inline(always)]
fn told(after: After, executed: Option<Result<Done, StopCause>>, count: &mut u64) -> Step
    requires few { count.old ≤ LAST_END }
    ensures step { result ≡ step_of after executed }
    ensures count { count.new ≡ counted executed count.old }
{
    match executed {
        None => Step::Left,
        Some(Err(cause)) => Step::Stopped { cause },
        Some(Ok(done)) => {
            let taken = done.cycles;
            *count += 1;
            match after {
                After::Single => Step::Single,
                After::Nothing => Step::Plain { taken },
                After::Back => Step::Jumped { taken },
                After::Loaded => Step::Loaded { taken },
                After::Store => Step::Stored { taken },
                After::Enabled => Step::Enabled { taken },
            }
        }
    }
}

// The first cycle of an instruction that is not told, where nothing is due, over what it may change of a machine: the
// parts of the core, which stand beside it, the data space and the count. Of one that goes on, the effect and the count
// are written.
#[inline(always)]
fn one_step(
    program: &Program,
    slots: &[Slot],
    regs: &mut Registers,
    core: &mut Core,
    bus: &mut NodeBus,
    count: &mut u64,
) -> Step
    requires slots { slots.now ≡ slots_below 65536 program.now.bytes }
    requires few { count.old ≤ LAST_END }
    ensures step { (m : Machine) → m.program ≡ program.now → MayAct bus.old.io.clock (over regs.old core.old bus.old count.old m) → is_told m.from m.to bus.old.io.clock ≡ false
        → IsStep bus.old.io.clock result (over regs.old core.old bus.old count.old m) (over regs.new core.new bus.new count.new m) }
    ensures flag { leaves_i result ≡ true → nat_lt core.new.sreg.bits 128 ≡ nat_lt core.old.sreg.bits 128 }
    ensures apart { leaves_board result ≡ true → bus.new.io ≡ bus.old.io }
{
    let op = program.op_at(slots, core.pc);
    let (after, executed) = execute_plain(op, program, regs, core, bus);
    told(after, executed, count)
}

impl Machine {
    // The end of a sprint behind an instruction of `taken` cycles, whose first cycle this is: of it the processor's part
    // is done, and `owed` says whether another is owed. Behind it, where the devices end nothing in its cycles and these
    // end by `end`; else inside. Most often a transfer's end is what comes: then nothing else is looked at.
    #[inline(never)]
    fn end_sprint(
        &mut self,
        regs: &Registers,
        core: Core,
        end: u64,
        taken: u8,
        owed: bool,
    ) -> Sprinted
        requires may { MayEnd end taken self.old }
        ensures sprinted { (t : ℕ) (first m : Machine) → IsSprinting t self.old.bus.io.clock first m → due (shown m) ≡ None
            → IsStepped self.old.bus.io.clock taken m (owing owed (beside regs.now core self.old)) → IsSprinted t result.at result.inside first self.new }
        ensures within { result.at ≤ end }
    {
        self.cpu = Cpu::of_parts(regs, core);
        self.owed = owed;
        let at = self.bus.io.now();
        if self.bus.io.may_end_before(at + u64::from(taken)) {
            self.wait = taken - 1;
            return Sprinted { at, inside: true };
        }
        self.end_executed(at, end, taken)
    }

    // The same where the parts of the core stand in it again.
    #[inline(never)]
    fn end_executed(&mut self, at: u64, end: u64, taken: u8) -> Sprinted
        requires may { MayEnd end taken self.old }
        requires now { self.old.bus.io.clock ≡ at }
        ensures sprinted { (t : ℕ) (first m : Machine) → IsSprinting t at first m → due (shown m) ≡ None
            → IsStepped at taken m self.old → IsSprinted t result.at result.inside first self.new }
        ensures within { result.at ≤ end }
    {
        if self.passes_whole(at, end, taken) {
            return Sprinted {
                at: at + u64::from(taken),
                inside: false,
            };
        }
        self.wait = taken - 1;
        Sprinted { at, inside: true }
    }

    // The end of a sprint before an instruction: the parts of the core stand in it again, and it says whether the
    // instruction is owed. The answer is the cycle.
    fn gather(&mut self, regs: &Registers, core: Core, owed_to: u64) -> u64
        ensures state { self.new ≡ owing (nat_lt self.old.count owed_to) (beside regs.now core self.old) }
        ensures value { result ≡ self.old.bus.io.clock }
        ensures early { result ≤ LAST_CYCLE }
    {
        self.cpu = Cpu::of_parts(regs, core);
        self.owed = self.count < owed_to;
        self.bus.io.now()
    }

    // Whether a line is up and the flag I is on.
    #[inline(always)]
    fn is_let_in(&self) -> bool
        ensures { result ≡ false → nat_lt self.now.cpu.sreg.bits 128 ≡ false → (lines_of self.now.bus.io.board).bits ≡ 0 }
    {
        is_on(self.cpu.sreg.bits) && self.bus.io.lines().bits != 0
    }

    // The last cycle of those from `cycle` on and up to `end` before the window, or of all behind it: an instruction that
    // begins by then has no row. `None` within the window.
    #[inline]
    fn last_untold(&self, cycle: u64, end: u64) -> Option<u64>
        requires within { cycle ≤ end }
        ensures within { IfSome result (λ last. last ≤ end) }
        ensures on { IfSome result (λ last. cycle ≤ last) }
        ensures untold { IfSome result (λ last. (i : ℕ) → cycle + i ≤ last → is_told self.now.from self.now.to (cycle + i) ≡ false) }
    {
        if cycle >= self.to {
            return Some(end);
        }
        if cycle >= self.from {
            return None;
        }
        Some(end.min(self.from - 1))
    }

    /// Executes instructions from `cycle` on, before the window or behind it and up to `end`, below which no byte arrives,
    /// while no interrupt is let in, by the lines and the flag I, and the devices end nothing. It ends before SLEEP and
    /// before an instruction that halts the node.
    pub fn sprint(&mut self, cycle: u64, end: u64) -> Sprinted
        requires may { MayAct cycle self.old }
        requires within { cycle ≤ end }
        requires early { end ≤ LAST_CYCLE }
        requires none { (i : ℕ) → cycle + i < end → script_byte self.old.script (cycle + i) ≡ None }
        ensures sprinted { IsSprinted cycle result.at result.inside self.old self.new }
        ensures within { result.at ≤ end }
    {
        let Some(last) = self.last_untold(cycle, end) else {
            return Sprinted {
                at: cycle,
                inside: false,
            };
        };
        // it executes the instruction that begins at its end, too
        self.sprint_untold(cycle, last)
    }

    // The same where none of the instructions that begin by `end` has a row.
    fn sprint_untold(&mut self, cycle: u64, end: u64) -> Sprinted
        requires may { MayAct cycle self.old }
        requires within { cycle ≤ end }
        requires early { end ≤ LAST_CYCLE }
        requires none { (i : ℕ) → cycle + i < end → script_byte self.old.script (cycle + i) ≡ None }
        requires untold { (i : ℕ) → cycle + i ≤ end → is_told self.old.from self.old.to (cycle + i) ≡ false }
        ensures sprinted { IsSprinted cycle result.at result.inside self.old self.new }
        ensures within { result.at ≤ end }
    {
        if self.owed || self.is_let_in() {
            return Sprinted {
                at: cycle,
                inside: false,
            };
        }
        // beside the machine, so that the host has SREG and the program counter in registers of its own
        let (mut regs, mut core) = self.cpu.parts();
        // SREG behind the last instruction that may have changed the flag I
        let mut flags = core.sreg.bits;
        // How many short jumps back are still to be passed by, and how many were behind the last: twice as many each time
        // that no leap was worth its trial, since a program that computes has many of them.
        let mut unseen = 0;
        let mut passed_by: u8 = 1;
        // Up to this count of instructions one is owed before an interrupt, which shows once the sprint ends.
        let mut owed_to = 0;
        loop {
            let slots = self.program.slots();
            // only an access to a device moves it: the lines then count, be the flag I on or not
            let mut bound = calm_to(&self.bus, end);
            loop {
                match one_step(
                    &self.program,
                    slots,
                    &mut regs,
                    &mut core,
                    &mut self.bus,
                    &mut self.count,
                ) {
                    Step::Single => {
                        if !self.bus.io.leap_within(bound, 1) {
                            return self.end_sprint(&regs, core, end, 1, false);
                        }
                    }
                    Step::Plain { taken } => {
                        if !self.bus.io.leap_within(bound, taken) {
                            return self.end_sprint(&regs, core, end, taken, false);
                        }
                    }
                    Step::Jumped { taken } => {
                        if !self.bus.io.leap_within(bound, taken) {
                            return self.end_sprint(&regs, core, end, taken, false);
                        }
                        if unseen == 0 {
                            break;
                        }
                        unseen -= 1;
                    }
                    Step::Loaded { taken } => {
                        bound = clear_to(&self.bus, end);
                        if !self.bus.io.leap_within(bound, taken) {
                            return self.end_sprint(&regs, core, end, taken, false);
                        }
                    }
                    Step::Stored { taken } => {
                        bound = clear_to(&self.bus, end);
                        if is_on(flags) == is_on(core.sreg.bits) {
                            if !self.bus.io.leap_within(bound, taken) {
                                return self.end_sprint(&regs, core, end, taken, false);
                            }
                        } else {
                            let on = !is_on(flags);
                            flags = core.sreg.bits;
                            if !self.bus.io.leap_within(bound, taken) {
                                return self.end_sprint(&regs, core, end, taken, on);
                            }
                            if on {
                                owed_to = self.count + 1;
                            }
                        }
                    }
                    Step::Enabled { taken } => {
                        bound = clear_to(&self.bus, end);
                        if !self.bus.io.leap_within(bound, taken) {
                            return self.end_sprint(&regs, core, end, taken, true);
                        }
                        flags = core.sreg.bits;
                        owed_to = self.count + 1;
                    }
                    Step::Left => {
                        let at = self.gather(&regs, core, owed_to);
                        return Sprinted { at, inside: false };
                    }
                    Step::Stopped { cause } => {
                        let at = self.gather(&regs, core, owed_to);
                        self.halt(at, core.pc, cause);
                        return Sprinted { at, inside: true };
                    }
                }
            }
            let at = self.gather(&regs, core, owed_to);
            if self.leap(at, end) < WORTH {
                passed_by = passed_by
                    .saturating_mul(2)
                    .saturating_add(1)
                    .min(MOST_UNSEEN);
                unseen = passed_by;
            } else {
                passed_by = 1;
            }
            (regs, core) = self.cpu.parts();
            flags = core.sreg.bits;
            owed_to = 0;
        }
    }
}
