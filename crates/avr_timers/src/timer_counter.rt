// The counter of a timer, cycle by cycle and in leaps.
ghost use Rattle.std.specs.Prelude.{◌≡◌, ◌≤◌, ◌<◌, ◌+◌, ◌-◌, ◌^◌, ◌↔◌, ◌==◌, ℕ, true, false, is_some, None, Some, IsSome, IfSome, IfNone};
ghost use Rattle.air_base.specs.Bounds.{LAST_CYCLE, LAST_END};
ghost use Rattle.avr_timers.specs.Clock.{many};
ghost use Rattle.avr_timers.specs.First.{First};
ghost use Rattle.avr_timers.specs.Timer.{meets};

use crate::{
    Prescaler, TimerFlags, clocks_until, count_after, cycle_of_clock, earlier, flag_after,
    has_clock, stepped, unless_set,
};

/// The counter of a timer of eight or sixteen bits, behind its prescaler, which counts from 0 in cycle 0 and is never
/// reset (ATmega128 datasheet, "8-bit Timer/Counter0" and "16-bit Timer/Counter").
#[derive(Clone, Copy)]
pub struct TimerCounter {
    /// The largest value: 0xFF or 0xFFFF. The count and the value at which it is cleared are not above it.
    pub maximum: u16,
    /// Where its clock comes from.
    pub prescaler: Prescaler,
    /// CS2:0.
    pub select: u8,
    /// TCNT.
    pub count: u16,
    /// Whether a write of TCNT blocks the compare match of the next clock.
    pub match_blocked: bool,
    /// The first compare value.
    pub compare_a: u16,
    /// Whether it is cleared there.
    pub clears_at_a: bool,
    /// The second compare value, where the timer has one.
    pub compare_b: Option<u16>,
    /// The third compare value, where the timer has one.
    pub compare_c: Option<u16>,
    /// ICR, where it is cleared there.
    pub icr: Option<u16>,
    /// The flags.
    pub flags: TimerFlags,
}

// Whether a count meets a value, where there is one.
#[inline]
fn meets(match_blocked: bool, count: u16, value: Option<u16>) -> bool
    ensures { result ≡ meets match_blocked count value }
{
    match value {
        Some(value) => !match_blocked && count == value,
        None => false,
    }
}

impl TimerCounter {
    ghost use Rattle.avr_timers.specs.Timer.{changes, changes_flag_at, clock, counter_cycle, divider, meets, set_flags, sets, sets_flag_at, top, count_at};

    // What its prescaler divides the clock by, 0 where it is halted.
    #[inline(always)]
    fn divider(&self) -> u64
        ensures value { result ≡ divider self.now }
        ensures most { result ≤ 1024 }
        ensures halted { (result ≡ 0) ↔ (self.now.select ≡ 0) }
    {
        self.prescaler.divider(self.select)
    }

    // The value at which it is cleared.
    #[inline(always)]
    fn top(&self) -> u16
        ensures { result ≡ top self.now }
    {
        match self.icr {
            Some(icr) => icr,
            None => {
                if self.clears_at_a {
                    self.compare_a
                } else {
                    self.maximum
                }
            }
        }
    }

    // The flags that its next clock sets.
    #[inline(always)]
    fn set_flags(&self) -> TimerFlags
        ensures { result ≡ set_flags self.now }
    {
        TimerFlags {
            tov: self.count == self.maximum,
            ocf_a: meets(self.match_blocked, self.count, Some(self.compare_a)),
            ocf_b: meets(self.match_blocked, self.count, self.compare_b),
            ocf_c: meets(self.match_blocked, self.count, self.compare_c),
            icf: meets(self.match_blocked, self.count, self.icr),
        }
    }

    // One clock.
    #[inline(always)]
    #[tactic(auto, unfolding(crate::specs::Timer::clock))]
    fn clock(&mut self)
        requires count { self.old.count ≤ self.old.maximum }
        ensures state { self.new ≡ clock self.old }
        ensures count { self.new.count ≤ self.new.maximum }
        ensures top { top self.new ≡ top self.old }
        ensures maximum { self.new.maximum ≡ self.old.maximum }
        ensures free { self.new.match_blocked ≡ false }
    {
        let set = self.set_flags();
        self.flags = self.flags.or(set);
        self.count = stepped(self.maximum, self.top(), self.match_blocked, self.count);
        self.match_blocked = false;
    }

    /// One cycle, with the number `cycle`: a clock where the prescaler has one.
    #[inline(always)]
    pub fn tick(&mut self, cycle: u64)
        requires early { cycle ≤ LAST_END }
        requires count { self.old.count ≤ self.old.maximum }
        ensures state { self.new ≡ counter_cycle cycle self.old }
        ensures count { self.new.count ≤ self.old.maximum }
    {
        if has_clock(self.divider(), cycle) {
            self.clock();
        }
    }

    // After how many clocks, none blocked, the count is first at a value.
    #[inline(always)]
    #[tactic(auto, unfolding(crate::specs::Timer::count_at))]
    fn reaches(&self, value: u16) -> Option<u64>
        requires count { self.now.count ≤ self.now.maximum }
        requires top { top self.now ≤ self.now.maximum }
        ensures first { First (λ k. count_at self.now k == value) result }
        ensures found { value ≤ top self.now → IsSome result }
        ensures few { IfSome result (λ w. w ≤ 131072) }
    {
        clocks_until(self.maximum, self.top(), self.count, value)
    }

    // After how many clocks, none blocked, the count is first at a value, where there is one.
    #[inline(always)]
    fn reaches_some(&self, value: Option<u16>) -> Option<u64>
        requires count { self.now.count ≤ self.now.maximum }
        requires top { top self.now ≤ self.now.maximum }
        ensures first { First (λ k. meets false (count_at self.now k) value) result }
        ensures found { IfSome value (λ v. v ≤ top self.now) → is_some value ≡ true → IsSome result }
        ensures few { IfSome result (λ w. w ≤ 131072) }
    {
        match value {
            Some(value) => self.reaches(value),
            None => None,
        }
    }

    // Clocks it so many times, none of them blocked.
    #[inline(always)]
    fn run(&mut self, clocks: u64)
        requires free { self.old.match_blocked ≡ false }
        requires count { self.old.count ≤ self.old.maximum }
        requires top { top self.old ≤ self.old.maximum }
        ensures state { self.new ≡ many clock clocks self.old }
        ensures count { self.new.count ≤ self.old.maximum }
    {
        let tov = self.reaches(self.maximum);
        let a = self.reaches(self.compare_a);
        let b = self.reaches_some(self.compare_b);
        let c = self.reaches_some(self.compare_c);
        let icr = self.reaches_some(self.icr);
        self.count = count_after(self.maximum, self.top(), self.count, clocks);
        self.flags = TimerFlags {
            tov: flag_after(self.flags.tov, tov, clocks),
            ocf_a: flag_after(self.flags.ocf_a, a, clocks),
            ocf_b: flag_after(self.flags.ocf_b, b, clocks),
            ocf_c: flag_after(self.flags.ocf_c, c, clocks),
            icf: flag_after(self.flags.icf, icr, clocks),
        };
    }

    /// Clocks it so many times, in a time that does not depend on their number.
    #[inline(always)]
    pub fn clock_times(&mut self, clocks: u64)
        requires count { self.old.count ≤ self.old.maximum }
        requires top { top self.old ≤ self.old.maximum }
        ensures state { self.new ≡ many clock clocks self.old }
        ensures count { self.new.count ≤ self.old.maximum }
    {
        if clocks == 0 {
            return;
        }
        if clocks > 1 && !self.match_blocked {
            self.run(clocks);
            return;
        }
        self.clock();
        if clocks > 1 {
            self.run(clocks - 1);
        }
    }

    // After how many clocks the first follows that sets a flag, none blocked.
    #[inline(always)]
    fn run_to_event(&self) -> Option<u64>
        requires free { self.now.match_blocked ≡ false }
        requires count { self.now.count ≤ self.now.maximum }
        requires top { top self.now ≤ self.now.maximum }
        ensures first { First (λ k. sets (many clock k self.now)) result }
        ensures found { IsSome result }
        ensures few { IfSome result (λ w. w ≤ 131072) }
    {
        let tov = self.reaches(self.maximum);
        let a = self.reaches(self.compare_a);
        let b = self.reaches_some(self.compare_b);
        let c = self.reaches_some(self.compare_c);
        let icr = self.reaches_some(self.icr);
        earlier(earlier(earlier(earlier(tov, a), b), c), icr)
    }

    // After how many clocks the first follows that sets a flag.
    #[inline(always)]
    fn clocks_to_event(&self) -> Option<u64>
        requires count { self.now.count ≤ self.now.maximum }
        requires top { top self.now ≤ self.now.maximum }
        ensures first { First (λ k. sets (many clock k self.now)) result }
        ensures found { IsSome result }
        ensures few { IfSome result (λ w. w ≤ 131073) }
    {
        if !self.match_blocked {
            return self.run_to_event();
        }
        if self.count == self.maximum {
            return Some(0);
        }
        let mut next = *self;
        next.clock();
        match next.run_to_event() {
            Some(w) => Some(w + 1),
            None => None,
        }
    }

    /// The first cycle from `cycle` on whose tick sets a flag, be it set already or not: less than 2^28 cycles on.
    /// `None` exactly where it is halted.
    #[inline(always)]
    pub fn next_event(&self, cycle: u64) -> Option<u64>
        requires early { cycle ≤ LAST_CYCLE }
        requires count { self.now.count ≤ self.now.maximum }
        requires top { top self.now ≤ self.now.maximum }
        ensures none { (result ≡ None) ↔ (self.now.select ≡ 0) }
        ensures later { IfSome result (λ e. cycle ≤ e) }
        ensures near { IfSome result (λ e. e < cycle + 2 ^ 28) }
        ensures first { IfSome result (λ e. First (sets_flag_at cycle self.now) (Some (e - cycle))) }
    {
        let d = self.divider();
        if d == 0 {
            return None;
        }
        match self.clocks_to_event() {
            Some(w) => Some(cycle_of_clock(d, cycle, w)),
            None => None,
        }
    }

    // After how many clocks the first follows that sets a flag that is not set, none blocked.
    #[inline(always)]
    fn run_to_change(&self) -> Option<u64>
        requires free { self.now.match_blocked ≡ false }
        requires count { self.now.count ≤ self.now.maximum }
        requires top { top self.now ≤ self.now.maximum }
        ensures first { First (λ k. changes (many clock k self.now)) result }
        ensures few { IfSome result (λ w. w ≤ 131072) }
    {
        let tov = unless_set(self.flags.tov, self.reaches(self.maximum));
        let a = unless_set(self.flags.ocf_a, self.reaches(self.compare_a));
        let b = unless_set(self.flags.ocf_b, self.reaches_some(self.compare_b));
        let c = unless_set(self.flags.ocf_c, self.reaches_some(self.compare_c));
        let icr = unless_set(self.flags.icf, self.reaches_some(self.icr));
        earlier(earlier(earlier(earlier(tov, a), b), c), icr)
    }

    // Whether its next clock sets a flag that is not set.
    #[inline(always)]
    fn changes(&self) -> bool
        ensures { result ≡ changes self.now }
    {
        self.set_flags().without(self.flags).any()
    }

    // After how many clocks the first follows that sets a flag that is not set.
    #[inline(always)]
    fn clocks_to_change(&self) -> Option<u64>
        requires count { self.now.count ≤ self.now.maximum }
        requires top { top self.now ≤ self.now.maximum }
        ensures first { First (λ k. changes (many clock k self.now)) result }
        ensures few { IfSome result (λ w. w ≤ 131073) }
    {
        if !self.match_blocked {
            return self.run_to_change();
        }
        if self.changes() {
            return Some(0);
        }
        let mut next = *self;
        next.clock();
        match next.run_to_change() {
            Some(w) => Some(w + 1),
            None => None,
        }
    }

    /// The first cycle from `cycle` on whose tick sets a flag that is not set. `None` exactly where none does, as of one
    /// that is halted.
    #[inline(always)]
    pub fn next_change(&self, cycle: u64) -> Option<u64>
        requires early { cycle ≤ LAST_CYCLE }
        requires count { self.now.count ≤ self.now.maximum }
        requires top { top self.now ≤ self.now.maximum }
        ensures never { IfNone result ((i : ℕ) → changes_flag_at cycle self.now i ≡ false) }
        ensures later { IfSome result (λ e. cycle ≤ e) }
        ensures first { IfSome result (λ e. First (changes_flag_at cycle self.now) (Some (e - cycle))) }
    {
        let d = self.divider();
        if d == 0 {
            return None;
        }
        match self.clocks_to_change() {
            Some(w) => Some(cycle_of_clock(d, cycle, w)),
            None => None,
        }
    }
}
