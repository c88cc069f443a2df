// The first of many clocks at which something happens.
ghost use Rattle.std.specs.Prelude.{◌≡◌, ◌||◌, if◌then◌else◌, None};
ghost use Rattle.avr_timers.specs.First.{earlier_of, is_before};

/// The earlier of two events, each of which may never come.
pub fn earlier(a: Option<u64>, b: Option<u64>) -> Option<u64>
    ensures { result ≡ earlier_of a b }
{
    match (a, b) {
        (None, _) => b,
        (Some(_), None) => a,
        (Some(v), Some(w)) => { if v < w { a } else { b } }
    }
}

/// What sets a flag first that is not set yet, by what sets it first: nothing where it is set.
#[inline(always)]
pub fn unless_set(flag: bool, first: Option<u64>) -> Option<u64>
    ensures { result ≡ (if flag then None else first) }
{
    if flag { None } else { first }
}

/// A flag after so many `clocks`, from the `first` clock, counted from 0, that sets it.
pub fn flag_after(flag: bool, first: Option<u64>, clocks: u64) -> bool
    ensures { result ≡ (flag || is_before first clocks) }
{
    flag || match first {
        Some(w) => w < clocks,
        None => false,
    }
}
