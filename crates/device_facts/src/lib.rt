//! Facts of the devices, each alone, from text files: a line does one thing to a device, and says what it answers. That
//! is compared with what the devices' crates answer; a line that is wrong is written, and how many there were.
#![tactic(auto)]

mod answers;
mod bench;
mod board;
mod clocks;
mod lagging;
mod numbers;
mod radio;
mod saved;
mod serial;
mod timers;
mod transfers;

use bench::Bench;
use sim_io::Sink;
use std::fs::Files;
use stored_cases::{Failed, judge_file};

/// Judges the lines of one file on devices at reset, and writes how many there were and each that is wrong.
pub fn do_file<R: Files + AllocGlobal, O: Sink>(
    rt: &R,
    file: &str,
    out: &mut O,
) -> Result<(), Failed> {
    judge_file(rt, file, &mut Bench::new(rt.alloc()), out)
}
