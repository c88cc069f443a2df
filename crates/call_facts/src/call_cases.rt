// Calls over stores and streams in memory, which fail where a line of a text file says so: for each the status, and
// what stands on the output and on the error stream.
use crate::call_lines::{Line, read_line};
use crate::call_texts::{write_outcome, write_statuses};
use crate::calling::{called, called_without_memory};
use crate::files::hold_file;
use crate::held::Held;
use sim_io::Sink;
use std::fs::Files;
use stored_cases::{Failed, LineCases, do_lines};

// Calls, each over the files that the lines above it hold.
#[derive(Drop)]
struct Calls {
    held: Held,
}

impl LineCases for Calls {
    fn do_case<R: Files + AllocGlobal, O: Sink>(
        &mut self,
        rt: &R,
        line: &str,
        out: &mut O,
    ) -> Result<(), Failed> {
        let alloc = rt.alloc();
        match read_line(alloc, line)? {
            Line::File(name) => hold_file(rt, name, &mut self.held),
            Line::Blank(name, length) => Ok(self.held.add_blank(alloc, name, length)?),
            Line::Lines(name, count, text) => Ok(self.held.add_lines(alloc, name, count, text)?),
            Line::Call(call) => {
                let outcome = called(alloc, call.words.as_slice(), &self.held, &call.faults)?;
                Ok(write_outcome(&outcome, out)?)
            }
            Line::Starved(words) => {
                let outcome = called_without_memory(alloc, words.as_slice())?;
                Ok(write_outcome(&outcome, out)?)
            }
            Line::Statuses => Ok(write_statuses(out)?),
            Line::Other => Err(Failed),
        }
    }
}

/// Does a file of single calls, line after line; the lines are written too.
pub fn do_calls<R: Files + AllocGlobal, O: Sink>(
    rt: &R,
    name: &str,
    out: &mut O,
) -> Result<(), Failed> {
    let held = Held::none(rt.alloc());
    do_lines(rt, name, &mut Calls { held }, out)
}
