// What is known of a board's next cycles.
ghost use Rattle.std.specs.Prelude.{◌≡◌, ◌≤◌, ◌<◌, ◌+◌, ℕ, false};
ghost use Rattle.air_base.specs.Bounds.{LAST_CYCLE};
ghost use Rattle.board_io.specs.Passing.{changes_flag_at, sets_flag_at};
ghost use Rattle.board_io.specs.Lagging.{IsAhead};

use crate::{Board, Clock};
use air_base::LAST_CYCLE;

// How many cycles on the next flag must be set at least, so that it is not asked whether it is set already.
const NEAR: u64 = 32;

/// What is known of a board whose timers have done the cycles below one.
#[derive(Clone, Copy)]
pub struct Forecast {
    /// That cycle.
    pub settled: u64,
    /// Below this cycle, 2^40 at most, no frame and no transfer ends and no flag of a timer changes, so that up to its
    /// beginning the lines stay.
    pub next: u64,
    /// Below this cycle no timer sets a flag, be it set already or not.
    pub steady: u64,
    /// The interrupt lines.
    pub lines: u64,
    /// `next` where no line is up, else 0: so one comparison tells whether cycles pass in which no interrupt can be
    /// due.
    pub clear: u64,
}

// Up to which cycle no line is up, by the lines and the cycle up to which they stay; 0 where one is up.
#[inline]
pub fn clear_until(lines: u64, next: u64) -> u64
    ensures within { result ≤ next }
    ensures down { 0 < result → lines ≡ 0 }
{
    if lines == 0 { next } else { 0 }
}

impl Board {
    ghost use Rattle.board_io.specs.Lagging.{caught_up};

    /// What is known of it from the cycle `settled` on, which its timers have come to, where its lines were `before`.
    #[inline(always)]
    pub fn ahead(&self, settled: u64, before: u64) -> Forecast
        requires { settled ≤ LAST_CYCLE }
        ensures settled { result.settled ≡ settled }
        ensures ahead { IsAhead result settled self.now }
    {
        let calm = self.quiet(settled, LAST_CYCLE - settled);
        let same = self.same_lines(settled, calm + 1);
        let steady = settled + (same - 1);
        let lines = self.lines().bits;
        let next = self.same_until(settled, calm, steady, lines != before);
        Forecast {
            settled,
            next,
            steady,
            lines,
            clear: clear_until(lines, next),
        }
    }

    // Up to which cycle, of at most `calm` cycles from `settled` on, no flag changes, where none is set below `steady`.
    // Most timers set one that is not set; of those that set one again and again, the first that is not is looked for, but
    // where a line has just gone up, whose flag is most often cleared before that.
    #[inline(always)]
    fn same_until(&self, settled: u64, calm: u64, steady: u64, is_new: bool) -> u64
        requires early { settled + calm ≤ LAST_CYCLE }
        requires within { steady ≤ settled + calm }
        requires steady { (i : ℕ) → settled + i < steady → sets_flag_at settled self.now i ≡ false }
        ensures within { result ≤ settled + calm }
        ensures calm { (i : ℕ) → settled + i < result → changes_flag_at settled self.now i ≡ false }
    {
        if is_new {
            return steady;
        }
        if steady >= settled + NEAR.min(calm) {
            return steady;
        }
        self.flags_until(settled, calm)
    }

    // Up to which cycle, of at most `calm` cycles from `settled` on, no flag changes.
    #[inline(never)]
    fn flags_until(&self, settled: u64, calm: u64) -> u64
        requires early { settled + calm ≤ LAST_CYCLE }
        ensures within { result ≤ settled + calm }
        ensures calm { (i : ℕ) → settled + i < result → changes_flag_at settled self.now i ≡ false }
    {
        settled + self.same_flags(settled, calm)
    }

    // Whether a frame or a transfer may end before a cycle. Nothing rests on it: it saves a look ahead.
    #[inline(always)]
    pub fn may_end_before(&self, cycle: u64) -> bool {
        self.spi.done_at().is_some_and(|end| end < cycle)
    }

    /// What is known of it in the cycle `clock`, where of its timers what `before` tells is known still.
    pub fn ahead_beside(&self, clock: u64, before: Forecast) -> Forecast
        requires settled { before.settled ≤ clock }
        requires now { clock ≤ LAST_CYCLE }
        requires early { before.next ≤ LAST_CYCLE }
        requires calm { (i : ℕ) → before.settled + i < before.next → changes_flag_at before.settled self.now i ≡ false }
        requires past { (i : ℕ) → before.settled + i < clock → changes_flag_at before.settled self.now i ≡ false }
        requires steady { (i : ℕ) → before.settled + i < before.steady → sets_flag_at before.settled self.now i ≡ false }
        ensures settled { result.settled ≡ before.settled }
        ensures ahead { IsAhead result clock self.now }
    {
        let calm = self.quiet(clock, before.next.saturating_sub(clock));
        let next = clock + calm;
        let lines = self.lines().bits;
        Forecast {
            settled: before.settled,
            next,
            steady: before.steady,
            lines,
            clear: clear_until(lines, next),
        }
    }

    /// Makes up for the timers' cycles from `settled` on and below `clock`.
    #[inline]
    pub fn catch_up(&mut self, settled: u64, clock: Clock)
        requires { settled ≤ clock }
        ensures { self.new ≡ caught_up settled clock self.old }
    {
        let clock = clock.get();
        if settled < clock {
            self.leap(settled, clock - settled);
        }
    }
}
