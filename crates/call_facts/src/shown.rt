// What is told of a call.
use crate::calling::Outcome;
use arrayvec::ArrayString;
use sim_io::put_decimal;
use std::alloc::{AllocError, Global};
use stored_cases::Digest;

/// What a call is to write where nothing fails, to the stream that may fail.
#[derive(Clone, Copy)]
pub enum Due<'d> {
    /// To the output.
    Out(&'d [u8]),
    /// To the error stream.
    Err(&'d [u8]),
    /// It is not known.
    Unknown,
}

// How much of what is due a stream took.
fn share_of(taken: &[u8], due: &[u8]) -> &'static str {
    if taken == due {
        "all"
    } else if due.starts_with(taken) {
        "a front"
    } else {
        "another"
    }
}

fn put_out(taken: &[u8], due: Due<'_>, text: &mut Vec<u8>) -> Result<(), AllocError> {
    match due {
        Due::Out(due) => {
            text.extend_from_slice(share_of(taken, due).as_bytes())?;
            Ok(())
        }
        _ if taken.is_empty() => {
            text.extend_from_slice(b"nothing")?;
            Ok(())
        }
        _ => {
            text.extend_from_slice(Digest::of(taken).text().as_str().as_bytes())?;
            Ok(())
        }
    }
}

fn put_err(taken: &[u8], due: Due<'_>, text: &mut Vec<u8>) -> Result<(), AllocError> {
    let line = match due {
        Due::Err(due) => share_of(taken, due).as_bytes(),
        _ if taken.is_empty() => b"nothing",
        _ => taken
            .strip_suffix(b"\n")
            .unwrap_or(b"a line without an end"),
    };
    text.extend_from_slice(line)?;
    Ok(())
}

/// What is told of a call, `status N, out .., err ..`: how much of what is due each stream took, or what it took.
pub fn text_of(alloc: Global, outcome: &Outcome, due: Due<'_>) -> Result<Vec<u8>, AllocError> {
    let mut text = Vec::new(alloc);
    let mut status = ArrayString::<32>::new();
    status.push_str("status ");
    put_decimal(outcome.status, &mut status);
    text.extend_from_slice(status.as_str().as_bytes())?;
    text.extend_from_slice(b", out ")?;
    put_out(outcome.out.taken(), due, &mut text)?;
    text.extend_from_slice(b", err ")?;
    put_err(outcome.err.taken(), due, &mut text)?;
    Ok(text)
}
