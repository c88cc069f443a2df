//! Stores and sinks over memory, over fake readers and writers, and over files and devices of the real system. What
//! each line of a text file comes to is written below it.
#![tactic(auto)]

mod cases;
mod halting;
mod reading;

use reading::read_line;
use sim_io::Sink;
use std::fs::Files;
use stored_cases::{Failed, LineCases, do_lines};

// Reads and writes of stores, sinks, pages and streams.
#[derive(Drop)]
struct Streams;

impl LineCases for Streams {
    fn do_case<R: Files + AllocGlobal, O: Sink>(
        &mut self,
        rt: &R,
        line: &str,
        out: &mut O,
    ) -> Result<(), Failed> {
        let case = read_line(rt.alloc(), line)?;
        cases::do_case(rt, &case, out)
    }
}

/// Does a file, line after line; the lines are written too.
pub fn do_file<R: Files + AllocGlobal, O: Sink>(
    rt: &R,
    file: &str,
    out: &mut O,
) -> Result<(), Failed> {
    do_lines(rt, file, &mut Streams, out)
}
