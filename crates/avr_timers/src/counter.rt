// The path of a counter in closed form.
ghost use Rattle.std.specs.Prelude.{◌≡◌, ◌≤◌, ◌==◌, IsSome, IfSome};
ghost use Rattle.avr_timers.specs.Counter.{path, stepped, wraps_at};
ghost use Rattle.avr_timers.specs.First.{First};

/// A counter after one clock: 0 after its maximum, and after its `top` unless a write of TCNT blocked the compare match
/// of this clock; else one more.
#[inline]
pub fn stepped(max: u16, top: u16, match_blocked: bool, count: u16) -> u16
    requires { count ≤ max }
    ensures value { result ≡ stepped max top match_blocked count }
    ensures within { result ≤ max }
{
    if count == max {
        return 0;
    }
    if !match_blocked && count == top {
        return 0;
    }
    count + 1
}

// The value at which a counter wraps: the last one before 0.
fn wraps_at(max: u16, top: u16, count: u16) -> u16
    requires top { top ≤ max }
    requires count { count ≤ max }
    ensures value { result ≡ wraps_at max top count }
    ensures behind { count ≤ result }
    ensures within { result ≤ max }
{
    if count <= top { top } else { max }
}

/// A counter after so many `clocks`, none of which is blocked. It runs to the value at which it wraps, `top` or from
/// above it `max`, and from 0 on it is periodic.
pub fn count_after(max: u16, top: u16, count: u16, clocks: u64) -> u16
    requires top { top ≤ max }
    requires count { count ≤ max }
    ensures value { result ≡ path max top count clocks }
    ensures within { result ≤ max }
{
    let first = u64::from(wraps_at(max, top, count) - count);
    if clocks <= first {
        count + clocks as u16
    } else {
        ((clocks - first - 1) % (u64::from(top) + 1)) as u16
    }
}

/// After how many clocks, none of which is blocked, a counter first stands at a `value`: 0 where it stands there now,
/// `None` where it never does.
pub fn clocks_until(max: u16, top: u16, count: u16, value: u16) -> Option<u64>
    requires top { top ≤ max }
    requires count { count ≤ max }
    ensures first { First (λ k. path max top count k == value) result }
    ensures found { value ≤ top → IsSome result }
    ensures few { IfSome result (λ w. w ≤ 131072) }
{
    let end = wraps_at(max, top, count);
    if count <= value && value <= end {
        Some(u64::from(value - count))
    } else if value <= top {
        Some(u64::from(end - count) + 1 + u64::from(value))
    } else {
        None
    }
}
