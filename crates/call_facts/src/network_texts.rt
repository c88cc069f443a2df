// What is written of a run.
use crate::calling::{Outcome, are_same};
use sim_io::{Sink, SinkFault, write_all};
use stored_cases::write_number;

// How many bytes a stream took, and what they are; a last line that has no end gets one.
fn write_stream<O: Sink>(name: &str, taken: &[u8], out: &mut O) -> Result<(), SinkFault> {
    write_number(name, taken.len() as u64, out)?;
    write_all(out, taken)?;
    if taken.is_empty() || taken.ends_with(b"\n") {
        Ok(())
    } else {
        write_all(out, b"\n")
    }
}

/// Writes the status of a run, and all of the output and of the error stream behind their lengths.
pub fn write_outcome<O: Sink>(outcome: &Outcome, out: &mut O) -> Result<(), SinkFault> {
    write_number("status", u64::from(outcome.status), out)?;
    write_stream("out", outcome.out.taken(), out)?;
    write_stream("err", outcome.err.taken(), out)
}

/// Writes whether the outcome of `run --plain` is that of `run`, and where it is not, what it is.
pub fn write_plain<O: Sink>(
    outcome: &Outcome,
    plain: &Outcome,
    out: &mut O,
) -> Result<(), SinkFault> {
    if are_same(outcome, plain) {
        return write_all(out, b"plain: the same\n");
    }
    write_all(out, b"plain: another\n")?;
    write_outcome(plain, out)
}
