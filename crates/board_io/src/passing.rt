// Many cycles of the devices at once.
ghost use Rattle.std.specs.Prelude.{◌≡◌, ◌≤◌, ◌<◌, ◌+◌, ◌-◌, ℕ, true, false};
ghost use Rattle.air_base.specs.Bounds.{LAST_CYCLE, LAST_END};
ghost use Rattle.avr_timers.specs.Clock.{cycles};
ghost use Rattle.avr_timers.specs.Timer8 as timer8;
ghost use Rattle.avr_timers.specs.Timer16 as timer16;
ghost use Rattle.board_io.specs.Passing.{is_at};

use crate::Board;
use avr_timers::{Timer8, Timer16};

// For how many cycles from `cycle` on, of at most `most`, the end of something does not come.
pub(crate) fn cycles_before(end: Option<u64>, cycle: u64, most: u64) -> u64
    requires { cycle + most ≤ LAST_END }
    ensures within { result ≤ most }
    ensures none { (i : ℕ) → i < result → is_at end (cycle + i) ≡ false }
    ensures goes_on { 0 < most → is_at end cycle ≡ false → 0 < result }
    ensures first { result < most → is_at end (cycle + result) ≡ true }
{
    match end {
        None => most,
        Some(end) => {
            if end < cycle {
                most
            } else {
                most.min(end - cycle)
            }
        }
    }
}

// The cycles of a timer at once. Most are halted: one test.
#[inline(always)]
#[tactic(auto, using(crate::proofs::Steady::stopped_8))]
fn leap_8(timer: &mut Timer8, cycle: u64, n: u64)
    requires { cycle + n ≤ LAST_END }
    ensures { timer.new ≡ cycles timer8.timer_cycle cycle n timer.old }
{
    if timer.select != 0 {
        timer.leap(cycle, n);
    }
}

// The cycles of a timer of sixteen bits at once.
#[inline(always)]
#[tactic(auto, using(crate::proofs::Steady::stopped_16))]
fn leap_16(timer: &mut Timer16, cycle: u64, n: u64)
    requires { cycle + n ≤ LAST_END }
    ensures { timer.new ≡ cycles timer16.timer_cycle cycle n timer.old }
{
    if timer.select != 0 {
        timer.leap(cycle, n);
    }
}

// For how many cycles from `cycle` on, of at most `most`, each begins with the flags that the timer has now.
#[inline(always)]
#[tactic(auto, using(crate::proofs::Steady::halted_8, crate::proofs::Steady::calm_8))]
fn same_flags_8(timer: &Timer8, cycle: u64, most: u64) -> u64
    requires { cycle ≤ LAST_CYCLE }
    ensures within { result ≤ most }
    ensures same { (i : ℕ) → i < result → timer8.flags_of (cycles timer8.timer_cycle cycle i timer.now) ≡ timer8.flags_of timer.now }
    ensures calm { (i : ℕ) → i + 1 < result → timer8.sets_flag_at cycle timer.now i ≡ false }
    ensures goes_on { 0 < most → 0 < result }
    ensures first { result < most → timer8.sets_flag_at cycle timer.now (result - 1) ≡ true }
{
    if timer.select == 0 {
        return most;
    }
    match timer.next_event(cycle) {
        None => most,
        Some(event) => most.min(event - cycle + 1),
    }
}

// For how many cycles from `cycle` on, of at most `most`, each begins with the flags that the timer of sixteen bits has
// now.
#[inline(always)]
#[tactic(auto, using(crate::proofs::Steady::halted_16, crate::proofs::Steady::calm_16))]
fn same_flags_16(timer: &Timer16, cycle: u64, most: u64) -> u64
    requires { cycle ≤ LAST_CYCLE }
    ensures within { result ≤ most }
    ensures same { (i : ℕ) → i < result → (cycles timer16.timer_cycle cycle i timer.now).flags ≡ timer.now.flags }
    ensures calm { (i : ℕ) → i + 1 < result → timer16.sets_flag_at cycle timer.now i ≡ false }
    ensures goes_on { 0 < most → 0 < result }
    ensures first { result < most → timer16.sets_flag_at cycle timer.now (result - 1) ≡ true }
{
    if timer.select == 0 {
        return most;
    }
    match timer.next_event(cycle) {
        None => most,
        Some(event) => most.min(event - cycle + 1),
    }
}

// For how many cycles from `cycle` on, of at most `most`, no flag of the timer changes.
#[inline(always)]
#[tactic(auto, using(crate::proofs::Steady::kept_8))]
fn unchanged_8(timer: &Timer8, cycle: u64, most: u64) -> u64
    requires { cycle ≤ LAST_CYCLE }
    ensures within { result ≤ most }
    ensures calm { (i : ℕ) → i < result → timer8.changes_flag_at cycle timer.now i ≡ false }
    ensures first { result < most → timer8.changes_flag_at cycle timer.now result ≡ true }
{
    if timer.select == 0 {
        return most;
    }
    match timer.next_change(cycle) {
        None => most,
        Some(event) => most.min(event - cycle),
    }
}

// For how many cycles from `cycle` on, of at most `most`, no flag of the timer of sixteen bits changes.
#[inline(always)]
#[tactic(auto, using(crate::proofs::Steady::kept_16))]
fn unchanged_16(timer: &Timer16, cycle: u64, most: u64) -> u64
    requires { cycle ≤ LAST_CYCLE }
    ensures within { result ≤ most }
    ensures calm { (i : ℕ) → i < result → timer16.changes_flag_at cycle timer.now i ≡ false }
    ensures first { result < most → timer16.changes_flag_at cycle timer.now result ≡ true }
{
    if timer.select == 0 {
        return most;
    }
    match timer.next_change(cycle) {
        None => most,
        Some(event) => most.min(event - cycle),
    }
}

impl Board {
    ghost use Rattle.board_io.specs.Cycle.{board_quiet, timers_leap};
    ghost use Rattle.board_io.specs.Lines.{lines_of};
    ghost use Rattle.board_io.specs.Passing.{changes_flag_at, sets_flag_at};

    /// For how many cycles from `cycle` on, of at most `most`, no frame and no transfer ends, as far as what runs now
    /// tells: up to the first end.
    #[tactic(auto, unfolding(crate::specs::Cycle::board_quiet))]
    pub fn quiet(&self, cycle: u64, most: u64) -> u64
        requires { cycle + most ≤ LAST_END }
        ensures within { result ≤ most }
        ensures none { (i : ℕ) → i < result → board_quiet (cycle + i) self.now ≡ true }
        ensures first { result < most → board_quiet (cycle + result) self.now ≡ false }
        ensures goes_on { 0 < most → board_quiet cycle self.now ≡ true → 0 < result }
    {
        let frame = cycles_before(self.usart.next_event(), cycle, most);
        cycles_before(self.spi.done_at(), cycle, frame)
    }

    /// The timers' part of the `n` cycles from `cycle` on at once: of cycles in which no frame and no transfer ends and
    /// no byte arrives that is all that the devices do.
    #[tactic(auto, unfolding(crate::specs::Cycle::timers_leap))]
    pub fn leap(&mut self, cycle: u64, n: u64)
        requires { cycle + n ≤ LAST_END }
        ensures { self.new ≡ timers_leap cycle n self.old }
    {
        leap_8(&mut self.t0, cycle, n);
        leap_16(&mut self.t1, cycle, n);
        leap_8(&mut self.t2, cycle, n);
        leap_16(&mut self.t3, cycle, n);
    }

    /// For how many cycles from `cycle` on, of at most `most`, each begins with the lines of now, where the timers
    /// alone move: up to the first cycle in which a timer sets a flag, and with it. At least one.
    #[inline(always)]
    pub fn same_lines(&self, cycle: u64, most: u64) -> u64
        requires { cycle ≤ LAST_CYCLE }
        ensures within { result ≤ most }
        ensures same { (i : ℕ) → i < result → lines_of (timers_leap cycle i self.now) ≡ lines_of self.now }
        ensures calm { (i : ℕ) → i + 1 < result → sets_flag_at cycle self.now i ≡ false }
        ensures goes_on { 0 < most → 0 < result }
        ensures first { result < most → sets_flag_at cycle self.now (result - 1) ≡ true }
    {
        let first = same_flags_8(&self.t0, cycle, most);
        let second = same_flags_16(&self.t1, cycle, first);
        let third = same_flags_8(&self.t2, cycle, second);
        same_flags_16(&self.t3, cycle, third)
    }

    /// For how many cycles from `cycle` on, of at most `most`, no flag of a timer changes.
    pub fn same_flags(&self, cycle: u64, most: u64) -> u64
        requires { cycle ≤ LAST_CYCLE }
        ensures within { result ≤ most }
        ensures calm { (i : ℕ) → i < result → changes_flag_at cycle self.now i ≡ false }
        ensures first { result < most → changes_flag_at cycle self.now result ≡ true }
    {
        let first = unchanged_8(&self.t0, cycle, most);
        let second = unchanged_16(&self.t1, cycle, first);
        let third = unchanged_8(&self.t2, cycle, second);
        unchanged_16(&self.t3, cycle, third)
    }
}
