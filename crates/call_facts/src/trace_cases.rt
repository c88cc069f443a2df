// Traces of whole nodes, one after another: for each line FILE CYCLES of a text file the trace of `node FILE CYCLES`,
// under a line that names it.
use commands::{Status, avrora_alone};
use memory_io::MemSink;
use sim_io::{DirStore, Sink, SinkFault, write_all};
use std::alloc::Global;
use std::fs::Files;
use stored_cases::{Failed, is_told, text_of, write_line};

// More bytes than the line on the error stream has.
const AMPLE: usize = 1_000;

// The line `== FILE CYCLES` before a trace.
fn write_heading<O: Sink>(file: &str, cycles: &str, out: &mut O) -> Result<(), SinkFault> {
    write_all(out, b"== ")?;
    write_all(out, file.as_bytes())?;
    write_all(out, b" ")?;
    write_line(cycles, out)
}

// One run over the real files, under its heading. It fails where the run does not end well.
fn do_run<R: Files + AllocGlobal, O: Sink>(
    rt: &R,
    file: &str,
    cycles: &str,
    out: &mut O,
) -> Result<(), Failed> {
    let alloc = rt.alloc();
    write_heading(file, cycles, out)?;
    let mut store = DirStore::new(rt);
    let mut err = quiet(alloc)?;
    match avrora_alone(alloc, &["node", file, cycles], &mut store, out, &mut err) {
        Status::Done => Ok(()),
        _ => Err(Failed),
    }
}

// An error stream that nobody reads.
fn quiet(alloc: Global) -> Result<MemSink, Failed> {
    match MemSink::new(alloc, AMPLE, AMPLE, Vec::new(alloc)) {
        Ok(sink) => Ok(sink),
        Err(_) => Err(Failed),
    }
}

/// Writes the traces of a file of runs of one node, line after line, up to the first run that does not end well or the
/// first line that is none.
pub fn do_traces<R: Files + AllocGlobal, O: Sink>(
    rt: &R,
    name: &str,
    out: &mut O,
) -> Result<(), Failed> {
    let text = text_of(rt, name)?;
    for line in text.as_str().lines() {
        if !is_told(line) {
            continue;
        }
        match line.split_once(' ') {
            Some((file, cycles)) => do_run(rt, file, cycles, out)?,
            None => return Err(Failed),
        }
    }
    Ok(())
}
