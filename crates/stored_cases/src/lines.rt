// The files whose lines are written too, each above what it comes to.
use crate::failed::Failed;
use crate::reading::{is_told, text_of};
use crate::writing::write_line;
use sim_io::Sink;
use std::fs::Files;

/// Cases of which a line of a file tells one.
pub trait LineCases {
    /// Does the case of a line, and writes what it comes to.
    fn do_case<R: Files + AllocGlobal, O: Sink>(
        &mut self,
        rt: &R,
        line: &str,
        out: &mut O,
    ) -> Result<(), Failed>;
}

/// Writes the lines of a real file, and below each that tells a case what it comes to.
pub fn do_lines<R: Files + AllocGlobal, C: LineCases, O: Sink>(
    rt: &R,
    file: &str,
    cases: &mut C,
    out: &mut O,
) -> Result<(), Failed> {
    let text = text_of(rt, file)?;
    for line in text.as_str().lines() {
        write_line(line, out)?;
        if is_told(line) {
            cases.do_case(rt, line, out)?;
        }
    }
    Ok(())
}
