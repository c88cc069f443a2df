// Runs of one node on which bytes arrive, each a line of a text file: for each the rows that it made, but not those of
// its instructions, how many rows it made in all, and two bytes of its SRAM.
use crate::running::run_trial;
use crate::trials::read_trial;
use crate::writing::write_run;
use sim_io::Sink;
use std::fs::Files;
use stored_cases::{Failed, LineCases, bytes_of, do_lines};

// Runs of one node.
#[derive(Drop)]
struct Nodes;

impl LineCases for Nodes {
    fn do_case<R: Files + AllocGlobal, O: Sink>(
        &mut self,
        rt: &R,
        line: &str,
        out: &mut O,
    ) -> Result<(), Failed> {
        let alloc = rt.alloc();
        let Some(trial) = read_trial(alloc, line)? else {
            return Err(Failed);
        };
        let image = bytes_of(rt, trial.image)?;
        let Some(run) = run_trial(alloc, image.as_slice(), trial) else {
            return Err(Failed);
        };
        Ok(write_run(&run, out)?)
    }
}

/// Makes the runs of a file, line after line; the lines are written too.
pub fn do_nodes<R: Files + AllocGlobal, O: Sink>(
    rt: &R,
    file: &str,
    out: &mut O,
) -> Result<(), Failed> {
    do_lines(rt, file, &mut Nodes, out)
}
