// The lines that a stored run writes.
use crate::failed::Failed;
use arrayvec::ArrayString;
use sim_io::{Sink, SinkFault, put_decimal, write_all};
use std::alloc::Global;
use std::fmt::Debug;

/// Writes a text, and the end of its line.
pub fn write_line<O: Sink>(text: &str, out: &mut O) -> Result<(), SinkFault> {
    write_all(out, text.as_bytes())?;
    write_all(out, b"\n")
}

/// Writes the line `NAME N`, the number in decimal digits.
pub fn write_number<O: Sink>(name: &str, number: u64, out: &mut O) -> Result<(), SinkFault> {
    let mut rest = ArrayString::<32>::new();
    rest.push_str(" ");
    put_decimal(number, &mut rest);
    write_all(out, name.as_bytes())?;
    write_line(rest.as_str(), out)
}

/// Writes how many cases a file has, or its first line that is not as the file says, and why.
pub fn tell_run<F: Debug + Drop, O: Sink>(
    alloc: Global,
    file: &str,
    ran: Result<u32, (u32, F)>,
    out: &mut O,
) -> Result<(), Failed> {
    match ran {
        Ok(count) => {
            let line = format!(in alloc; "{file}: {count} cases")?;
            Ok(write_line(line.as_str(), out)?)
        }
        Err((line, fault)) => {
            let line = format!(in alloc; "{file}: line {line}: {fault:?}")?;
            write_line(line.as_str(), out)?;
            Err(Failed)
        }
    }
}
