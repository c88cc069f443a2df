// Calls that fail at every place: each read, each write to the output, each write to the error stream, a file that ends
// at each of its bytes, and images that nobody wrote as a program. For each call the status and what stands on the two
// streams; `run FILE`, by threads, is run a second time as `run --plain FILE`, which has to come to the same.
use crate::fault_lines::read_series;
use crate::files::{takes_content, takes_file};
use crate::held::Held;
use crate::series::do_series;
use sim_io::Sink;
use std::fs::Files;
use std::sync::Wait;
use std::thread::Threads;
use stored_cases::{Failed, is_told, text_of, write_line};

// A line of a case file, which is written too, but for the lines of files.
fn do_line<R: Threads + Wait + Files + AllocGlobal + Sync, O: Sink>(
    rt: &R,
    line: &str,
    held: &mut Held,
    out: &mut O,
) -> Result<(), Failed> {
    if takes_content(line, held)? {
        return Ok(());
    }
    write_line(line, out)?;
    if !is_told(line) || takes_file(rt, line, held)? {
        return Ok(());
    }
    match read_series(rt.alloc(), line)? {
        Some(series) => do_series(rt, &series, held, out),
        None => Err(Failed),
    }
}

/// Does a file of series of calls that fail, line after line; the lines are written too, but for those of files.
pub fn do_faults<R: Threads + Wait + Files + AllocGlobal + Sync, O: Sink>(
    rt: &R,
    name: &str,
    out: &mut O,
) -> Result<(), Failed> {
    let text = text_of(rt, name)?;
    let mut held = Held::none(rt.alloc());
    for line in text.as_str().lines() {
        do_line(rt, line, &mut held, out)?;
    }
    Ok(())
}
