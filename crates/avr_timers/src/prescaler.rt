// The prescalers of the timers.
ghost use Rattle.std.specs.Prelude.{◌≡◌, ◌≤◌, ◌+◌, ◌↔◌};
ghost use Rattle.air_base.specs.Bounds.{LAST_END};
ghost use Rattle.avr_timers.specs.Clock.{clocks_of};

use crate::clocks_in;

/// Which prescaler a timer's clock comes from: they differ in what a clock select chooses.
#[derive(Clone, Copy)]
pub enum Prescaler {
    /// Timer 0's own.
    Own,
    /// The one that timers 1, 2 and 3 share.
    Shared,
}

impl Prescaler {
    ghost use Rattle.avr_timers.specs.Prescaler.{divider_of, is_pin};

    /// What a clock select, CS2:0, divides the clock by; 0 where it halts the timer. Timer 0 has 1, 8, 32, 64, 128, 256
    /// and 1024 behind the selects 1 to 7, the others 1, 8, 64, 256 and 1024 behind 1 to 5.
    #[inline(always)]
    #[tactic(auto, unfolding(crate::specs::Prescaler::divider_of))]
    pub fn divider(self, select: u8) -> u64
        ensures value { result ≡ divider_of self select }
        ensures most { result ≤ 1024 }
        ensures halted { (result ≡ 0) ↔ (select ≡ 0) }
    {
        match (self, select) {
            (_, 0) => 0,
            (_, 1) => 1,
            (_, 2) => 8,
            (Prescaler::Own, 3) => 32,
            (Prescaler::Own, 4) | (Prescaler::Shared, 3) => 64,
            (Prescaler::Own, 5) => 128,
            (Prescaler::Own, 6) | (Prescaler::Shared, 4) => 256,
            _ => 1024,
        }
    }

    /// How many clocks a timer of this clock select has in the `n` cycles from `cycle` on.
    #[inline(always)]
    pub fn clocks(self, select: u8, cycle: u64, n: u64) -> u64
        requires { cycle + n ≤ LAST_END }
        ensures { result ≡ clocks_of (divider_of self select) cycle n }
    {
        let divider = self.divider(select);
        if divider > 0 {
            clocks_in(divider, cycle, n)
        } else {
            0
        }
    }

    /// Whether a clock select is that of a pin, of which timer 0 has none.
    pub fn is_pin(self, select: u8) -> bool
        ensures { result ≡ is_pin self select }
    {
        match self {
            Prescaler::Own => false,
            Prescaler::Shared => select > 5,
        }
    }
}
