// What is written of a call.
use crate::calling::Outcome;
use arrayvec::ArrayString;
use commands::Status;
use sim_io::{Sink, SinkFault, put_decimal, write_all};
use stored_cases::{Digest, write_line, write_number};

// Of a text of more lines than this only the first two and the last two are written, and between them a number for all
// of it.
const MOST_LINES: usize = 20;

// `NAME: N bytes, M lines`
fn write_size<O: Sink>(
    name: &str,
    text: &[u8],
    lines: usize,
    out: &mut O,
) -> Result<(), SinkFault> {
    let mut line = ArrayString::<64>::new();
    put_decimal(text.len() as u64, &mut line);
    line.push_str(" bytes, ");
    put_decimal(lines as u64, &mut line);
    line.push_str(" lines\n");
    write_all(out, name.as_bytes())?;
    write_all(out, b": ")?;
    write_all(out, line.as_str().as_bytes())
}

// `| .. N bytes HASH`, of the whole text, where lines of it are left out.
fn write_digest<O: Sink>(text: &[u8], out: &mut O) -> Result<(), SinkFault> {
    write_all(out, b"| .. ")?;
    write_line(Digest::of(text).text().as_str(), out)
}

// A text under its size, each of its lines behind a bar; a last one that has no end too.
fn write_text<O: Sink>(name: &str, text: &[u8], out: &mut O) -> Result<(), SinkFault> {
    let lines = text.iter().filter(|c| **c == b'\n').count();
    write_size(name, text, lines, out)?;
    if text.is_empty() {
        return Ok(());
    }
    let body = text.strip_suffix(b"\n").unwrap_or(text);
    let mut number: usize = 0;
    for line in body.split(|c| *c == b'\n') {
        if lines > MOST_LINES && number == 2 {
            write_digest(text, out)?;
        }
        if lines <= MOST_LINES || number < 2 || number.saturating_add(2) >= lines {
            write_all(out, b"| ")?;
            write_all(out, line)?;
            write_all(out, b"\n")?;
        }
        number = number.saturating_add(1);
    }
    Ok(())
}

fn write_status<O: Sink>(name: &str, status: Status, out: &mut O) -> Result<(), SinkFault> {
    write_number(name, u64::from(status.number()), out)
}

/// Writes the name and the number of each status.
pub fn write_statuses<O: Sink>(out: &mut O) -> Result<(), SinkFault> {
    write_status("Done", Status::Done, out)?;
    write_status("SinkFailed", Status::SinkFailed, out)?;
    write_status("BadWords", Status::BadWords, out)?;
    write_status("ReadFailed", Status::ReadFailed, out)?;
    write_status("BadScenario", Status::BadScenario, out)?;
    write_status("BadImage", Status::BadImage, out)?;
    write_status("NoMemory", Status::NoMemory, out)?;
    write_status("BadSource", Status::BadSource, out)?;
    write_status("BadState", Status::BadState, out)
}

/// Writes the status of a call, and the output and the error stream under their sizes; of a long one its first and last
/// lines.
pub fn write_outcome<O: Sink>(outcome: &Outcome, out: &mut O) -> Result<(), SinkFault> {
    write_number("status", u64::from(outcome.status), out)?;
    write_text("out", outcome.out.taken(), out)?;
    write_text("err", outcome.err.taken(), out)
}
