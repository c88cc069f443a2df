// The timer, cycle by cycle and in leaps.
ghost use Rattle.std.specs.Prelude.{◌≡◌, ◌≤◌, ◌<◌, ◌+◌, ◌-◌, ◌^◌, ◌↔◌, ℕ, false, None, Some, IfNone, IfSome};
ghost use Rattle.air_base.specs.Bounds.{LAST_CYCLE, LAST_END};
ghost use Rattle.avr_timers.specs.Clock.{cycles, many};
ghost use Rattle.avr_timers.specs.First.{First};
ghost use Rattle.avr_timers.specs.Timer as counter;

use crate::{Mode16, Prescaler, TimerCounter, TimerFlags};

/// A timer of sixteen bits, timer 1 or 3 (ATmega128 datasheet, "16-bit Timer/Counter"), by its registers.
#[derive(Clone, Copy)]
pub struct Timer16 {
    /// WGM3:0.
    pub mode: Mode16,
    /// CS2:0, 0 to 5.
    pub select: u8,
    /// ICNC, kept without effect.
    pub noise_canceler: bool,
    /// ICES, kept without effect.
    pub rising_edge: bool,
    /// TCNT.
    pub count: u16,
    /// OCRA.
    pub compare_a: u16,
    /// OCRB.
    pub compare_b: u16,
    /// OCRC.
    pub compare_c: u16,
    /// ICR.
    pub icr: u16,
    /// TEMP, the high byte of a 16-bit access.
    pub temp: u8,
    /// Whether a write of TCNT blocks the compare match of the next clock.
    pub match_blocked: bool,
    /// The flags.
    pub flags: TimerFlags,
}

impl Timer16 {
    ghost use Rattle.avr_timers.specs.Timer16.{changes_flag_at, clears_at_compare, clears_at_icr, cleared, counter_of, reset_timer, sets_flag_at, timer_cycle, with_counter};

    /// A timer after reset: halted, with all registers and flags 0.
    pub fn new() -> Timer16
        ensures { result ≡ reset_timer }
    {
        Timer16 {
            mode: Mode16::Normal,
            select: 0,
            noise_canceler: false,
            rising_edge: false,
            count: 0,
            compare_a: 0,
            compare_b: 0,
            compare_c: 0,
            icr: 0,
            temp: 0,
            match_blocked: false,
            flags: TimerFlags::NONE,
        }
    }

    /// The flags.
    #[inline(always)]
    pub fn flags(&self) -> TimerFlags
        ensures { result ≡ self.now.flags }
    {
        self.flags
    }

    /// Clears the flags that are set in `f`. Nothing else changes.
    pub fn clear(&mut self, f: TimerFlags)
        ensures { self.new ≡ cleared self.old f }
    {
        self.flags = self.flags.without(f);
    }

    // Whether the counter is cleared at the first compare value.
    #[inline(always)]
    fn clears_at_compare(&self) -> bool
        ensures { result ≡ clears_at_compare self.now.mode }
    {
        matches!(self.mode, Mode16::ClearAtCompare)
    }

    // Whether it is cleared at ICR.
    #[inline(always)]
    pub(crate) fn clears_at_icr(&self) -> bool
        ensures { result ≡ clears_at_icr self.now.mode }
    {
        matches!(self.mode, Mode16::ClearAtIcr)
    }

    // Its counter, which goes to 65,535 at most.
    #[inline(always)]
    fn counter(self) -> TimerCounter
        ensures value { result ≡ counter_of self }
        ensures maximum { result.maximum ≡ 65535 }
        ensures top { counter.top result ≤ 65535 }
    {
        let icr = if self.clears_at_icr() {
            Some(self.icr)
        } else {
            None
        };
        TimerCounter {
            maximum: u16::MAX,
            prescaler: Prescaler::Shared,
            select: self.select,
            count: self.count,
            match_blocked: self.match_blocked,
            compare_a: self.compare_a,
            clears_at_a: self.clears_at_compare(),
            compare_b: Some(self.compare_b),
            compare_c: Some(self.compare_c),
            icr,
            flags: self.flags,
        }
    }

    // Takes over where its counter came to.
    #[inline(always)]
    fn set_counter(&mut self, counter: TimerCounter)
        ensures { self.new ≡ with_counter self.old counter }
    {
        self.count = counter.count;
        self.match_blocked = counter.match_blocked;
        self.flags = counter.flags;
    }

    /// One cycle, with the number `cycle`: a clock where the prescaler has one.
    pub fn tick(&mut self, cycle: u64)
        requires { cycle ≤ LAST_END }
        ensures { self.new ≡ timer_cycle cycle self.old }
    {
        let mut counter = self.counter();
        counter.tick(cycle);
        self.set_counter(counter);
    }

    // Clocks its counter so many times.
    #[inline(always)]
    fn clock_times(&mut self, clocks: u64)
        ensures { self.new ≡ with_counter self.old (many counter.clock clocks (counter_of self.old)) }
    {
        let mut counter = self.counter();
        counter.clock_times(clocks);
        self.set_counter(counter);
    }

    // Clocks it many times, in a call of its own: inlined, the code would slow the leaps of no clock or one.
    #[inline(never)]
    fn clock_many_times(&mut self, clocks: u64)
        ensures { self.new ≡ with_counter self.old (many counter.clock clocks (counter_of self.old)) }
    {
        self.clock_times(clocks);
    }

    /// The `n` cycles from `cycle` on at once: the same as that many ticks, in a time that does not depend on `n`. A
    /// counter that a program reads again and again has no clock or one between two reads.
    #[tactic(auto, using(crate::proofs::Clocks16::leap_many, crate::proofs::Clocks16::leap_none))]
    pub fn leap(&mut self, cycle: u64, n: u64)
        requires { cycle + n ≤ LAST_END }
        ensures { self.new ≡ cycles timer_cycle cycle n self.old }
    {
        match Prescaler::Shared.clocks(self.select, cycle, n) {
            0 => {}
            1 => self.clock_times(1),
            clocks => self.clock_many_times(clocks),
        }
    }

    // TCNT after the `n` cycles from `cycle` on, none of which sets a flag.
    #[inline(always)]
    pub(crate) fn count_calm(&self, cycle: u64, n: u64) -> u16
        requires early { cycle + n ≤ LAST_END }
        requires calm { (i : ℕ) → i < n → sets_flag_at cycle self.now i ≡ false }
        ensures { result ≡ (cycles timer_cycle cycle n self.now).count }
    {
        let clocks = Prescaler::Shared.clocks(self.select, cycle, n);
        self.count + clocks as u16
    }

    /// The first cycle from `cycle` on whose tick sets a flag, be it set already or not: less than 2^28 cycles on.
    /// `None` exactly where the timer is halted.
    pub fn next_event(&self, cycle: u64) -> Option<u64>
        requires { cycle ≤ LAST_CYCLE }
        ensures none { (result ≡ None) ↔ (self.now.select ≡ 0) }
        ensures later { IfSome result (λ e. cycle ≤ e) }
        ensures near { IfSome result (λ e. e < cycle + 2 ^ 28) }
        ensures first { IfSome result (λ e. First (sets_flag_at cycle self.now) (Some (e - cycle))) }
    {
        self.counter().next_event(cycle)
    }

    /// The first cycle from `cycle` on whose tick sets a flag that is not set. `None` exactly where none does, as of a
    /// timer that is halted.
    pub fn next_change(&self, cycle: u64) -> Option<u64>
        requires { cycle ≤ LAST_CYCLE }
        ensures never { IfNone result ((i : ℕ) → changes_flag_at cycle self.now i ≡ false) }
        ensures later { IfSome result (λ e. cycle ≤ e) }
        ensures first { IfSome result (λ e. First (changes_flag_at cycle self.now) (Some (e - cycle))) }
    {
        self.counter().next_change(cycle)
    }
}
