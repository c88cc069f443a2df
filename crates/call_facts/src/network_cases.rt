// Runs of whole networks: for each that a text file tells, the status, the trace and the error stream of `run FILE`,
// with each node on a thread of its own, and whether those of `run --plain FILE` are the same.
use crate::files::{takes_content, takes_file};
use crate::held::Held;
use crate::network_lines::read_run;
use crate::network_runs::made;
use crate::network_texts::{write_outcome, write_plain};
use sim_io::Sink;
use std::fs::Files;
use std::sync::Wait;
use std::thread::Threads;
use stored_cases::{Failed, is_told, text_of, write_line};

// A line of a case file, which is written too, but for the lines of files.
fn do_line<R: Threads + Wait + Files + AllocGlobal + Sync, O: Sink>(
    rt: &R,
    line: &str,
    held: &mut Held,
    out: &mut O,
) -> Result<(), Failed> {
    if takes_content(line, held)? {
        return Ok(());
    }
    write_line(line, out)?;
    if !is_told(line) || takes_file(rt, line, held)? {
        return Ok(());
    }
    let Some((name, limits)) = read_run(line) else {
        return Err(Failed);
    };
    let outcome = made(rt, &["run", name], limits, held)?;
    let plain = made(rt, &["run", "--plain", name], limits, held)?;
    write_outcome(&outcome, out)?;
    Ok(write_plain(&outcome, &plain, out)?)
}

/// Does a file of runs of networks, line after line; the lines are written too, but for those of files.
pub fn do_networks<R: Threads + Wait + Files + AllocGlobal + Sync, O: Sink>(
    rt: &R,
    name: &str,
    out: &mut O,
) -> Result<(), Failed> {
    let text = text_of(rt, name)?;
    let mut held = Held::none(rt.alloc());
    for line in text.as_str().lines() {
        do_line(rt, line, &mut held, out)?;
    }
    Ok(())
}
