// Scenario texts: for each case of a file what `scenario_file` reads of it, or the name of its fault.
//
// A file of cases is lines of bytes. A line `== NAME` begins a case; its text is what stands between it and the next
// such line, without the last LF.
use crate::report::report;
use sim_io::Sink;
use std::alloc::Global;
use std::fs::Files;
use stored_cases::{Failed, TextCase, bytes_of};

fn finish<O: Sink>(alloc: Global, case: Option<TextCase<'_>>, out: &mut O) -> Result<(), Failed> {
    match case {
        Some(case) => report(alloc, case.name(), case.text(), out),
        None => Ok(()),
    }
}

/// Reads each text of a file and writes what was read of it.
pub fn do_scenarios<R: Files + AllocGlobal, O: Sink>(
    rt: &R,
    file: &str,
    out: &mut O,
) -> Result<(), Failed> {
    let alloc = rt.alloc();
    let bytes = bytes_of(rt, file)?;
    let mut case: Option<TextCase<'_>> = None;
    for line in bytes.as_slice().split(|b| *b == b'\n') {
        if let Some(begun) = TextCase::begun_by(alloc, line) {
            finish(alloc, case, out)?;
            case = Some(begun);
        } else if let Some(open) = &mut case {
            open.add(line)?;
        }
    }
    finish(alloc, case, out)
}
