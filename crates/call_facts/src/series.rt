// Calls that fail at one place after another.
use crate::calling::{Faults, Stream};
use crate::fault_lines::{Place, Series};
use crate::foreign::image;
use crate::held::Held;
use crate::rows::Rows;
use crate::shown::Due;
use crate::trying::{Told, tried};
use sim_io::Sink;
use std::alloc::{AllocError, Global};
use std::sync::Wait;
use std::thread::Threads;
use stored_cases::Failed;

// No series has more calls.
const MOST_CALLS: u64 = 100_000;

// A stream that takes so many bytes at a call, and of which this call fails.
fn failing(alloc: Global, step: usize, number: u64) -> Result<Stream, AllocError> {
    let mut stream = Stream::ample(alloc);
    stream.step = step;
    stream.fail.push(number)?;
    Ok(stream)
}

// Where the call of this number fails, and the status that it then has to have.
fn faults_of(alloc: Global, place: Place<'_>, number: u64) -> Result<(Faults, u8), AllocError> {
    let mut faults = Faults::none(alloc);
    match place {
        Place::Read => {
            faults.reads.push(number)?;
            Ok((faults, 3))
        }
        Place::Out(step, _) => {
            faults.out = failing(alloc, step, number)?;
            Ok((faults, 1))
        }
        Place::Err(step, _) => {
            faults.err = failing(alloc, step, number)?;
            Ok((faults, 1))
        }
        Place::End(_) | Place::Drawn(_, _) => Ok((faults, 0)),
    }
}

fn due_of<'d>(place: Place<'_>, held: &'d Held) -> Option<Due<'d>> {
    match place {
        Place::Out(_, name) => Some(Due::Out(held.bytes(name)?)),
        Place::Err(_, name) => Some(Due::Err(held.bytes(name)?)),
        _ => Some(Due::Unknown),
    }
}

// One call fails after another, until one has another status than that of a failure.
fn fail_in_turn<R: Threads + Wait + AllocGlobal + Sync, O: Sink>(
    rt: &R,
    series: &Series<'_>,
    held: &Held,
    rows: &mut Rows,
    out: &mut O,
) -> Result<(), Failed> {
    let Some(due) = due_of(series.place, held) else {
        return Err(Failed);
    };
    for number in 0..MOST_CALLS {
        let (faults, failure) = faults_of(rt.alloc(), series.place, number)?;
        let told = tried(rt, series.words.as_slice(), held, &faults, due)?;
        let is_last = told.status != failure;
        rows.add(number, told.text, out)?;
        if is_last {
            return Ok(());
        }
    }
    Err(Failed)
}

// One call over what is held, and nothing fails.
fn once<R: Threads + Wait + AllocGlobal + Sync>(
    rt: &R,
    series: &Series<'_>,
    held: &Held,
) -> Result<Told, AllocError> {
    let faults = Faults::none(rt.alloc());
    tried(rt, series.words.as_slice(), held, &faults, Due::Unknown)
}

// The file ends behind each of its bytes, and before the first.
fn end_in_turn<R: Threads + Wait + AllocGlobal + Sync, O: Sink>(
    rt: &R,
    series: &Series<'_>,
    name: &str,
    held: &Held,
    rows: &mut Rows,
    out: &mut O,
) -> Result<(), Failed> {
    let Some(whole) = held.bytes(name) else {
        return Err(Failed);
    };
    for length in 0..=whole.len() {
        let cut = held.cut(rt.alloc(), name, length)?;
        let told = once(rt, series, &cut)?;
        rows.add(length as u64, told.text, out)?;
    }
    Ok(())
}

// Image N and image COUNT - 1 - N, for each N below the count, as `left.hex` and `right.hex`.
fn draw_in_turn<R: Threads + Wait + AllocGlobal + Sync, O: Sink>(
    rt: &R,
    series: &Series<'_>,
    count: u16,
    step: u16,
    held: &Held,
    rows: &mut Rows,
    out: &mut O,
) -> Result<(), Failed> {
    let alloc = rt.alloc();
    for number in 0..count {
        let mut files = held.copy(alloc)?;
        let other = count - 1 - number;
        files.add(alloc, "left.hex", image(alloc, number.wrapping_mul(step))?)?;
        files.add(alloc, "right.hex", image(alloc, other.wrapping_mul(step))?)?;
        let told = once(rt, series, &files)?;
        rows.add(u64::from(number), told.text, out)?;
    }
    Ok(())
}

/// Makes the calls of a series, and writes what they came to.
pub fn do_series<R: Threads + Wait + AllocGlobal + Sync, O: Sink>(
    rt: &R,
    series: &Series<'_>,
    held: &Held,
    out: &mut O,
) -> Result<(), Failed> {
    let mut rows = Rows::new(rt.alloc());
    match series.place {
        Place::Read | Place::Out(_, _) | Place::Err(_, _) => {
            fail_in_turn(rt, series, held, &mut rows, out)?;
        }
        Place::End(name) => end_in_turn(rt, series, name, held, &mut rows, out)?,
        Place::Drawn(count, step) => {
            draw_in_turn(rt, series, count, step, held, &mut rows, out)?;
        }
    }
    Ok(rows.end(out)?)
}
