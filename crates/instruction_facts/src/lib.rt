//! Facts of single instructions, of their digits, of the images that bring them and of the sources that they are
//! assembled from, in text files: each case has the words of one instruction, the operands of one rule, a number, an
//! image or a source, and what comes of it. That is compared with what the crates of the instructions give; a case that
//! is wrong is written, and how many there were. The head of each file has the forms of its cases.
#![tactic(auto)]

mod cases;
mod effects;
mod flags;
mod images;
mod machine;
mod numbers;
mod sources;
mod sweeps;
mod texts;
mod words;

use cases::Bench;
use sim_io::Sink;
pub use sources::do_sources;
use std::fs::Files;
use stored_cases::{Failed, judge_file};
pub use words::do_all_words;

/// Judges the cases of one file, and writes how many there were and each that is wrong. A line that is no case, nor
/// says on what machine the next ones run, is a wrong one.
pub fn do_file<R: Files + AllocGlobal, O: Sink>(
    rt: &R,
    file: &str,
    out: &mut O,
) -> Result<(), Failed> {
    judge_file(rt, file, &mut Bench::new(rt.alloc())?, out)
}
