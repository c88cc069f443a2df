//! The rules of the air as tables: each case file has questions with the answers that somebody else worked out, by hand
//! or by `bench/air_cases.py`. `world_core` and `sync_core` are asked all of them.
#![tactic(auto)]

mod logs;
mod plain;
mod questions;
mod run;
mod setting;

use run::run_file;
use sim_io::Sink;
use std::fs::Files;
use stored_cases::{Failed, tell_run, text_of};

/// Asks all questions of a file, and writes how many there were; or the first line that is not as the file says.
pub fn do_file<R: Files + AllocGlobal, O: Sink>(
    rt: &R,
    file: &str,
    out: &mut O,
) -> Result<(), Failed> {
    let text = text_of(rt, file)?;
    tell_run(rt.alloc(), file, run_file(rt.alloc(), text.as_str()), out)
}
