//! Texts of saved states, each a small change of one that is accepted, and how each is to be answered: with the fault
//! of its first faulty line.
#![tactic(auto)]

mod cases;
mod edits;
mod network;
mod state;

use cases::StateCases;
use network::two_nodes;
use sim_io::Sink;
use std::fs::Files;
use stored_cases::{Failed, judge_file};

/// Judges the cases of a file, one a line, and writes how many there were and each that is not as its line says.
pub fn do_file<R: Files + AllocGlobal, O: Sink>(
    rt: &R,
    file: &str,
    out: &mut O,
) -> Result<(), Failed> {
    let scenario = two_nodes(rt.alloc())?;
    judge_file(rt, file, &mut StateCases { scenario }, out)
}
