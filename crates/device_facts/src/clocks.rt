// The clocks and counters that the timers share, and which interrupt waits.
use crate::answers::Answer;
use crate::numbers::{byte, cycle, long, perhaps, short};
use avr_base::{Lines, Vector, pending};
use avr_timers::{
    clocks_in, clocks_until, count_after, cycle_of_clock, earlier, flag_after, has_clock, stepped,
};
use device_base::any_bit;

// The maximum, the top and the count of a counter.
fn counter(max: &str, top: &str, count: &str) -> Option<(u16, u16, u16)> {
    Some((short(max)?, short(top)?, short(count)?))
}

fn do_counter(words: &[&str]) -> Option<Answer> {
    let [what, max, top, count, last] = words else {
        return None;
    };
    let (max, top, count) = counter(max, top, count)?;
    if top > max || count > max {
        return None;
    }
    match *what {
        "after" => Some(Answer::Number(u64::from(count_after(max, top, count, cycle(last)?)))),
        "until" => Some(Answer::perhaps(clocks_until(max, top, count, short(last)?))),
        "stepped" => {
            let blocked = *last == "blocked";
            Some(Answer::Number(u64::from(stepped(max, top, blocked, count))))
        }
        _ => None,
    }
}

fn do_clock(words: &[&str]) -> Option<Answer> {
    match words {
        ["has", divider, at] => Some(Answer::Truth(has_clock(cycle(divider)?, cycle(at)?))),
        ["in", divider, from, n] => {
            let divider = cycle(divider)?;
            if divider == 0 {
                return None;
            }
            Some(Answer::Number(clocks_in(divider, cycle(from)?, cycle(n)?)))
        }
        ["cycle", divider, from, clocks] => {
            let (divider, clocks) = (cycle(divider)?, cycle(clocks)?);
            if divider == 0 || divider > 1024 || clocks > 131_073 {
                return None;
            }
            Some(Answer::Number(cycle_of_clock(divider, cycle(from)?, clocks)))
        }
        ["earlier", a, b] => Some(Answer::perhaps(earlier(perhaps(a)?, perhaps(b)?))),
        ["flag", first, clocks] => Some(Answer::Truth(flag_after(
            false,
            perhaps(first)?,
            cycle(clocks)?,
        ))),
        ["bits", b, mask] => Some(Answer::Truth(any_bit(byte(b)?, byte(mask)?))),
        _ => None,
    }
}

/// What a line asks of counters and prescaled clocks; `None` where it is none of the forms.
pub fn do_clocks(words: &[&str]) -> Option<Answer> {
    match do_counter(words) {
        Some(answer) => Some(answer),
        None => do_clock(words),
    }
}

fn vector(found: Option<Vector>) -> Answer {
    match found {
        Some(v) => Answer::Number(u64::from(v.word)),
        None => Answer::Nothing,
    }
}

/// Which interrupt waits on the lines that a line has; `None` where it is none of the form.
pub fn do_interrupts(words: &[&str]) -> Option<Answer> {
    match words {
        ["pending", bits] => Some(vector(pending(Lines { bits: long(bits)? }))),
        _ => None,
    }
}
