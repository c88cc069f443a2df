// A call, and what is told of it.
use crate::calling::{Faults, Outcome, are_same, called, called_on_threads};
use crate::held::Held;
use crate::shown::{Due, text_of};
use std::alloc::{AllocError, Global};
use std::sync::Wait;
use std::thread::Threads;

/// What a call came to: its status, and what is told of it.
#[derive(Drop)]
pub struct Told {
    /// The status.
    pub status: u8,
    /// The text.
    pub text: Vec<u8>,
}

// The call on one thread, where it can be asked for.
fn plain(
    alloc: Global,
    words: &[&str],
    held: &Held,
    faults: &Faults,
) -> Result<Option<Outcome>, AllocError> {
    match words {
        ["run", name] => Ok(Some(called(alloc, &["run", "--plain", *name], held, faults)?)),
        _ => Ok(None),
    }
}

/// Makes a call, with each node of `run FILE` on a thread of its own. It is told to be another on one thread where it
/// is.
pub fn tried<R: Threads + Wait + AllocGlobal + Sync>(
    rt: &R,
    words: &[&str],
    held: &Held,
    faults: &Faults,
    due: Due<'_>,
) -> Result<Told, AllocError> {
    let alloc = rt.alloc();
    let outcome = called_on_threads(rt, words, held, faults)?;
    let mut text = text_of(alloc, &outcome, due)?;
    if let Some(other) = plain(alloc, words, held, faults)? {
        if !are_same(&outcome, &other) {
            text.extend_from_slice(b"; plain: another")?;
        }
    }
    Ok(Told {
        status: outcome.status,
        text,
    })
}
