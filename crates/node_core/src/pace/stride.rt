// Whole instructions of a node up to the next event of its devices.
ghost use Rattle.std.specs.Prelude.{◌≡◌, ◌≤◌, ◌<◌, ◌+◌, ◌-◌, ℕ, None, true, false, vec_len, vec_capacity};
ghost use Rattle.air_base.specs.Bounds.{LAST_CYCLE};
ghost use Rattle.node_core.specs.Inside.{IsCalm, IsGoing, IsPassed};
ghost use Rattle.node_core.specs.Pace.Midway.{IsMidway};
ghost use Rattle.board_io.specs.Cycle.{timers_leap};
ghost use Rattle.node_core.specs.Shown.{shown};
ghost use Rattle.serial_ports.specs.Script.{script_byte};

use crate::machine::{Machine, ROWS_OF_A_CYCLE};

impl Machine {
    /// The devices' part of the cycle `cycle` and of the others of an instruction of `taken` cycles that began in it,
    /// if they end by `end`, up to which no byte arrives, and the devices end nothing in them. The answer is whether it
    /// was so; else nothing changes.
    #[inline(always)]
    pub fn passes_whole(&mut self, cycle: u64, end: u64, taken: u8) -> bool
        requires now { self.old.bus.io.clock ≡ cycle }
        requires early { cycle ≤ LAST_CYCLE }
        requires none { (i : ℕ) → cycle + i < end → script_byte self.old.script (cycle + i) ≡ None }
        ensures calm { result ≡ true → IsCalm cycle taken (shown self.old) }
        ensures state { result ≡ true → shown self.new ≡ record (shown self.old) { board = timers_leap cycle taken (shown self.old).board } }
        ensures same { result ≡ false → self.new ≡ self.old }
        ensures others { self.new ≡ record self.old { bus = self.new.bus } }
        ensures clock { result ≡ true → self.new.bus.io.clock ≡ cycle + taken }
        ensures within { result ≡ true → cycle + taken ≤ end }
    {
        if cycle + u64::from(taken) > end {
            return false;
        }
        self.bus.io.leap_quiet(cycle, taken)
    }

    // The same where the timers' flags do not change in them, either. It calls nothing: a call in the loop of `stride` would
    // take registers of the host from the sprint in it.
    #[inline(always)]
    fn passes_calm(&mut self, cycle: u64, end: u64, taken: u8) -> bool
        requires now { self.old.bus.io.clock ≡ cycle }
        requires early { cycle ≤ LAST_CYCLE }
        requires none { (i : ℕ) → cycle + i < end → script_byte self.old.script (cycle + i) ≡ None }
        ensures calm { result ≡ true → IsCalm cycle taken (shown self.old) }
        ensures state { result ≡ true → shown self.new ≡ record (shown self.old) { board = timers_leap cycle taken (shown self.old).board } }
        ensures same { result ≡ false → self.new ≡ self.old }
        ensures others { self.new ≡ record self.old { bus = self.new.bus } }
        ensures clock { result ≡ true → self.new.bus.io.clock ≡ cycle + taken }
        ensures within { result ≡ true → cycle + taken ≤ end }
    {
        if cycle + u64::from(taken) > end {
            return false;
        }
        self.bus.io.leap_whole(cycle, taken)
    }

    // The devices' part of the cycle `cycle`, in which an instruction begins that takes `taken` cycles, and its other
    // cycles, if they end by `end`, up to which no byte arrives, and the devices end nothing in them: whether it was
    // so. Not where `taken` is 0.
    #[inline(always)]
    fn finish_instruction(&mut self, cycle: u64, end: u64, taken: u8) -> bool
        requires going { 0 < taken → IsGoing taken (shown self.old) }
        requires now { self.old.bus.io.clock ≡ cycle }
        requires early { cycle ≤ LAST_CYCLE }
        requires none { (i : ℕ) → cycle + i < end → script_byte self.old.script (cycle + i) ≡ None }
        ensures passed { result ≡ true → IsPassed cycle taken (shown self.old) (shown self.new) }
        ensures same { result ≡ false → self.new ≡ self.old }
        ensures rows { self.new.rows ≡ self.old.rows }
        ensures clock { result ≡ true → self.new.bus.io.clock ≡ cycle + taken }
        ensures within { result ≡ true → cycle + taken ≤ end }
    {
        if taken == 0 || !self.passes_calm(cycle, end, taken) {
            return false;
        }
        self.wait = 0;
        true
    }

    // Whether there is room for the rows of a cycle.
    fn has_room(&self) -> bool
        ensures { result ≡ true → vec_len self.now.rows + 4 ≤ vec_capacity self.now.rows }
    {
        self.rows.capacity() - self.rows.len() >= ROWS_OF_A_CYCLE
    }

    /// Cycles from `cycle` on, of at most `most`, in which the devices end nothing, and for whose rows there is room: how
    /// many it were. Of the cycle after them the processor's part is done, and the devices' part is still to come. In a call of
    /// its own: inlined, what its caller keeps would take registers of the host from the sprint in it.
    #[inline(never)]
    pub fn stride(&mut self, cycle: u64, most: u64) -> u64
        requires going { self.old.stop ≡ None }
        requires now { self.old.bus.io.clock ≡ cycle }
        requires few { self.old.count ≤ LAST_CYCLE + cycle }
        requires early { cycle + most ≤ LAST_CYCLE }
        requires some { 0 < most }
        requires room { vec_len self.old.rows + 4 ≤ vec_capacity self.old.rows }
        ensures midway { IsMidway (record { cycle = cycle; asking = false; state = shown self.old; rows = self.old.rows.items }) (cycle + result) (shown self.new) self.new.rows.items }
        ensures room { vec_len self.new.rows + 3 ≤ vec_capacity self.new.rows }
        ensures count { self.new.count ≤ LAST_CYCLE + cycle + result + 1 }
        ensures clock { self.new.bus.io.clock ≡ cycle + result }
        ensures within { result < most }
    {
        if self.wait > 0 || self.asleep {
            self.idle(cycle);
            return 0;
        }
        let end = cycle + self.script.quiet(cycle, most - 1);
        let mut at = cycle;
        loop {
            let sprinted = self.sprint(at, end);
            at = sprinted.at;
            if sprinted.inside {
                return at - cycle;
            }
            let taken = self.act(at);
            // a cycle in which the devices do more may have rows of theirs
            if !self.has_room() {
                return at - cycle;
            }
            if !self.finish_instruction(at, end, taken) {
                return at - cycle;
            }
            at += u64::from(taken);
        }
    }
}
