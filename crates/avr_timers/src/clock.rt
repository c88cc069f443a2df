// Clocks behind a prescaler.
ghost use Rattle.std.specs.Prelude.{◌≡◌, ◌≤◌, ◌<◌, ◌+◌, ◌-◌, ◌*◌, ◌/◌, ◌^◌};
ghost use Rattle.air_base.specs.Bounds.{LAST_CYCLE, LAST_END};
ghost use Rattle.avr_timers.specs.Clock.{clocked};

/// Whether a prescaler that divides by `divider` has its clock in `cycle`. One with divider 0 is halted. It counts
/// from 0 in cycle 0, so its clocks fall into the cycles `divider - 1`, `2 * divider - 1`, ..
#[inline]
pub fn has_clock(divider: u64, cycle: u64) -> bool
    requires { cycle ≤ LAST_END }
    ensures { result ≡ clocked divider cycle }
{
    divider > 0 && (cycle + 1) % divider == 0
}

/// How many clocks fall into the `n` cycles from `cycle` on.
#[inline]
pub fn clocks_in(divider: u64, cycle: u64, n: u64) -> u64
    requires some { 0 < divider }
    requires fits { cycle + n ≤ LAST_END }
    ensures { result ≡ (cycle + n) / divider - cycle / divider }
{
    let end = cycle + n;
    end / divider - cycle / divider
}

/// The cycle of the first clock, from `cycle` on, before which there are `clocks` others.
pub fn cycle_of_clock(divider: u64, cycle: u64, clocks: u64) -> u64
    requires some { 0 < divider }
    requires most { divider ≤ 1024 }
    requires early { cycle ≤ LAST_CYCLE }
    requires few { clocks ≤ 131073 }
    ensures value { result + 1 ≡ (cycle / divider + clocks + 1) * divider }
    ensures later { cycle ≤ result }
    ensures near { result < cycle + 2 ^ 28 }
{
    cycle / divider * divider + (clocks + 1) * divider - 1
}
