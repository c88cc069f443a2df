// A run over files and streams in memory.
use crate::calling::{Faults, Outcome, called_on_threads};
use crate::held::Held;
use crate::network_lines::Limits;
use std::alloc::{AllocError, Global};
use std::sync::Wait;
use std::thread::Threads;

fn faults_of(alloc: Global, limits: Limits) -> Result<Faults, AllocError> {
    let mut faults = Faults::none(alloc);
    match limits {
        Limits::Ample => {}
        Limits::Read(number) => faults.reads.push(number)?,
        Limits::Out(room) => faults.out.room = room,
        Limits::Err(room) => faults.err.room = room,
    }
    Ok(faults)
}

/// Makes a call with these words over what is held, of which a read or a stream fails.
pub fn made<R: Threads + Wait + AllocGlobal + Sync>(
    rt: &R,
    words: &[&str],
    limits: Limits,
    held: &Held,
) -> Result<Outcome, AllocError> {
    let faults = faults_of(rt.alloc(), limits)?;
    called_on_threads(rt, words, held, &faults)
}
