//! The record of the air as tables: each case file has steps of nodes, with the answers that somebody else worked out,
//! by hand or by `bench/air_cases.py`. They are taken on the clock words and the record alone, or on one shared record,
//! each line of steps in a session of its own.
#![tactic(auto)]

mod answer;
mod holding;
mod parts;
mod sessions;
mod stand;
mod steps;
mod team;

use sim_io::Sink;
use std::fs::Files;
use std::sync::Wait;
use stored_cases::{Failed, tell_run, text_of};

/// Takes all steps of a file on the clock words and the record alone, and writes how many answers there were, or the
/// first line that is not as the file says.
pub fn do_record<R: Files + AllocGlobal, O: Sink>(
    rt: &R,
    file: &str,
    out: &mut O,
) -> Result<(), Failed> {
    let text = text_of(rt, file)?;
    tell_run(
        rt.alloc(),
        file,
        steps::run_file(rt.alloc(), text.as_str()),
        out,
    )
}

/// Takes all steps of a file on one shared record, each line of steps in a session of its own, and writes how many
/// answers there were, or the first line that is not as the file says.
pub fn do_sessions<R: Files + Wait + AllocGlobal, O: Sink>(
    rt: &R,
    file: &str,
    out: &mut O,
) -> Result<(), Failed> {
    let text = text_of(rt, file)?;
    tell_run(
        rt.alloc(),
        file,
        sessions::run_file(rt, rt.alloc(), text.as_str()),
        out,
    )
}
