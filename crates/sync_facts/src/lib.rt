//! Trials of the clock words, of the shared record and of the record of sends, each a word: with real threads, or so
//! many calls on one thread, for `bench/clocks.sh`, `bench/shared.sh` and `bench/air.sh`.
//!
//! - `clocks`: one node raises its clock through a million cycles, and another one looks at it all the while.
//! - `wakes:N`: two nodes wait for each other in each of so many cycles. None of them is to sleep until its time is up.
//! - `load:N`, `peek:N`, `raise:N`: so many of these calls on clock words.
//! - `post:N`, `sample:N`, `both:N`: so many rounds in which node 0 posts a thousand bytes, in `post` each by one try;
//!   and node 1 samples each of them, behind it on one thread, or beside it on another one.
//! - `front:SENDS:SAMPLES`, `all:SENDS:SAMPLES`: so many samples of 64 nodes that have sent so many bytes each, at the
//!   newest sends or drawn over all of them.
//! - `waits:N`: two nodes that hear each other wait for each other at each of so many samples. None of them is to sleep
//!   until its time is up.
//! - `halt`: a node waits at its sample for one that does not go on, and tells all to halt.
#![tactic(auto)]

mod calls;
mod clocks;
mod nodes;
mod rounds;
mod samples;
mod waits;
mod words;
mod world;

use sim_io::Sink;
use std::sync::Wait;
use std::thread::Threads;
use std::time::Clock;
use stored_cases::{Failed, write_line};

// What comes of a trial. `None` where there is none of this name, it went wrong, or there was no memory.
fn line_of<R: Threads + Wait + Clock + AllocGlobal + Sync>(rt: &R, trial: &str) -> Option<String> {
    if trial == "clocks" {
        return clocks::on_threads(rt);
    }
    if trial == "halt" {
        return waits::at_halt(rt);
    }
    let (call, numbers) = trial.split_once(':')?;
    match call {
        "wakes" => clocks::in_turns(rt, numbers.parse().ok()?),
        "waits" => waits::at_samples(rt, numbers.parse().ok()?),
        "load" | "peek" | "raise" => clocks::on_one(rt.alloc(), call, numbers.parse().ok()?),
        "front" => samples::counted(rt.alloc(), false, numbers),
        "all" => samples::counted(rt.alloc(), true, numbers),
        _ => rounds::run_rounds(rt, call, numbers.parse().ok()?),
    }
}

/// Does a trial, and writes what came of it.
pub fn do_trial<R: Threads + Wait + Clock + AllocGlobal + Sync, O: Sink>(
    rt: &R,
    trial: &str,
    out: &mut O,
) -> Result<(), Failed> {
    let Some(line) = line_of(rt, trial) else {
        return Err(Failed);
    };
    Ok(write_line(line.as_str(), out)?)
}
