// The timer, cycle by cycle and in leaps.
ghost use Rattle.std.specs.Prelude.{◌≡◌, ◌≤◌, ◌<◌, ◌+◌, ◌-◌, ◌^◌, ◌↔◌, ℕ, false, None, Some, IfNone, IfSome};
ghost use Rattle.air_base.specs.Bounds.{LAST_CYCLE, LAST_END};
ghost use Rattle.avr_timers.specs.Clock.{cycles, many};
ghost use Rattle.avr_timers.specs.First.{First};
ghost use Rattle.avr_timers.specs.Timer as counter;

use crate::{Prescaler, TimerCounter, TimerFlags};

/// A timer of eight bits, timer 0 or 2 (ATmega128 datasheet, "8-bit Timer/Counter0" and "8-bit Timer/Counter2"), by its
/// registers.
#[derive(Clone, Copy)]
pub struct Timer8 {
    /// Timer 0's own prescaler, or the one that timer 2 shares with others. The two timers differ in nothing else.
    pub prescaler: Prescaler,
    /// WGM1, CTC mode: whether the counter is cleared at the compare value.
    pub ctc: bool,
    /// CS2:0, which the prescaler gives a sense: 0 to 7 of timer 0, 0 to 5 of timer 2.
    pub select: u8,
    /// TCNT.
    pub count: u8,
    /// OCR.
    pub compare: u8,
    /// Whether a write of TCNT blocks the compare match of the next clock.
    pub match_blocked: bool,
    /// TOV.
    pub tov: bool,
    /// OCF.
    pub ocf_a: bool,
}

impl Timer8 {
    ghost use Rattle.avr_timers.specs.Timer8.{changes_flag_at, cleared, counter_of, flags_of, reset_timer, sets_flag_at, timer_cycle, with_counter};

    /// A timer after reset: halted, with all registers and flags 0.
    pub fn new(prescaler: Prescaler) -> Timer8
        ensures { result ≡ reset_timer prescaler }
    {
        Timer8 {
            prescaler,
            ctc: false,
            select: 0,
            count: 0,
            compare: 0,
            match_blocked: false,
            tov: false,
            ocf_a: false,
        }
    }

    /// The flags: `tov` and `ocf_a` alone.
    #[inline(always)]
    pub fn flags(&self) -> TimerFlags
        ensures { result ≡ flags_of self.now }
    {
        TimerFlags {
            tov: self.tov,
            ocf_a: self.ocf_a,
            ocf_b: false,
            ocf_c: false,
            icf: false,
        }
    }

    /// Clears the flags that are set in `f`. Nothing else changes.
    pub fn clear(&mut self, f: TimerFlags)
        ensures { self.new ≡ cleared self.old f }
    {
        self.tov = self.tov && !f.tov;
        self.ocf_a = self.ocf_a && !f.ocf_a;
    }

    // Its counter, which goes to 255 at most.
    #[inline(always)]
    fn counter(&self) -> TimerCounter
        ensures value { result ≡ counter_of self.now }
        ensures maximum { result.maximum ≡ 255 }
        ensures count { result.count ≤ 255 }
        ensures top { counter.top result ≤ 255 }
    {
        TimerCounter {
            maximum: 255,
            prescaler: self.prescaler,
            select: self.select,
            count: u16::from(self.count),
            match_blocked: self.match_blocked,
            compare_a: u16::from(self.compare),
            clears_at_a: self.ctc,
            compare_b: None,
            compare_c: None,
            icr: None,
            flags: self.flags(),
        }
    }

    // Takes over where its counter came to.
    #[inline(always)]
    fn set_counter(&mut self, counter: TimerCounter)
        requires { counter.count ≤ 255 }
        ensures { self.new ≡ with_counter self.old counter }
    {
        self.count = counter.count as u8;
        self.match_blocked = counter.match_blocked;
        self.tov = counter.flags.tov;
        self.ocf_a = counter.flags.ocf_a;
    }

    /// One cycle, with the number `cycle`: a clock where the prescaler has one.
    pub fn tick(&mut self, cycle: u64)
        requires { cycle ≤ LAST_END }
        ensures { self.new ≡ timer_cycle cycle self.old }
    {
        let mut counter = self.counter();
        counter.tick(cycle);
        self.set_counter(counter);
    }

    // Clocks its counter so many times.
    #[inline(always)]
    fn clock_times(&mut self, clocks: u64)
        ensures { self.new ≡ with_counter self.old (many counter.clock clocks (counter_of self.old)) }
    {
        let mut counter = self.counter();
        counter.clock_times(clocks);
        self.set_counter(counter);
    }

    // Clocks it many times, in a call of its own: inlined, the code would slow the leaps of no clock or one.
    #[inline(never)]
    fn clock_many_times(&mut self, clocks: u64)
        ensures { self.new ≡ with_counter self.old (many counter.clock clocks (counter_of self.old)) }
    {
        self.clock_times(clocks);
    }

    /// The `n` cycles from `cycle` on at once: the same as that many ticks, in a time that does not depend on `n`. A
    /// counter that a program reads again and again has no clock or one between two reads.
    #[tactic(auto, using(crate::proofs::Clocks8::leap_many, crate::proofs::Clocks8::leap_none))]
    pub fn leap(&mut self, cycle: u64, n: u64)
        requires { cycle + n ≤ LAST_END }
        ensures { self.new ≡ cycles timer_cycle cycle n self.old }
    {
        match self.prescaler.clocks(self.select, cycle, n) {
            0 => {}
            1 => self.clock_times(1),
            clocks => self.clock_many_times(clocks),
        }
    }

    // TCNT after the `n` cycles from `cycle` on, none of which sets a flag.
    #[inline(always)]
    pub(crate) fn count_calm(&self, cycle: u64, n: u64) -> u8
        requires early { cycle + n ≤ LAST_END }
        requires calm { (i : ℕ) → i < n → sets_flag_at cycle self.now i ≡ false }
        ensures { result ≡ (cycles timer_cycle cycle n self.now).count }
    {
        let clocks = self.prescaler.clocks(self.select, cycle, n);
        self.count + clocks as u8
    }

    /// The first cycle from `cycle` on whose tick sets a flag, be it set already or not: less than 2^28 cycles on.
    /// `None` exactly where the timer is halted.
    pub fn next_event(&self, cycle: u64) -> Option<u64>
        requires { cycle ≤ LAST_CYCLE }
        ensures none { (result ≡ None) ↔ (self.now.select ≡ 0) }
        ensures later { IfSome result (λ e. cycle ≤ e) }
        ensures near { IfSome result (λ e. e < cycle + 2 ^ 28) }
        ensures first { IfSome result (λ e. First (sets_flag_at cycle self.now) (Some (e - cycle))) }
    {
        self.counter().next_event(cycle)
    }

    /// The first cycle from `cycle` on whose tick sets a flag that is not set. `None` exactly where none does, as of a
    /// timer that is halted.
    pub fn next_change(&self, cycle: u64) -> Option<u64>
        requires { cycle ≤ LAST_CYCLE }
        ensures never { IfNone result ((i : ℕ) → changes_flag_at cycle self.now i ≡ false) }
        ensures later { IfSome result (λ e. cycle ≤ e) }
        ensures first { IfSome result (λ e. First (changes_flag_at cycle self.now) (Some (e - cycle))) }
    {
        self.counter().next_change(cycle)
    }
}
