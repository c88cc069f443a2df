// Why a case file is not as it should be.
use crate::answer::Answer;
use std::alloc::{AllocError, AllocFailed};
use world_core::NoMemory;

/// Why a line of a case file stops a run.
#[derive(Clone, Copy, Debug)]
pub enum Fault {
    /// An answer is another than the file has.
    Differs {
        /// What is answered.
        got: Answer,
        /// What the file has.
        want: Answer,
    },
    /// The record holds other sends than the file has.
    OtherSends,
    /// The record holds other samples than the file has.
    OtherSamples,
    /// The record is cut up to this cycle, and not up to the file's.
    OtherFloor(u64),
    /// The step is one that a contract forbids, or would wait for ever on one thread.
    Forbidden,
    /// The line is none of a case file, or has no world to speak of, or asks what may not be asked: of a topology that
    /// is refused, or of sends that lie outside it.
    Unreadable,
    /// Want of memory.
    NoMemory,
}

impl From<AllocError> for Fault {
    fn from(_error: AllocError) -> Self {
        Fault::NoMemory
    }
}

impl<T: Drop> From<AllocFailed<T>> for Fault {
    fn from(_error: AllocFailed<T>) -> Self {
        Fault::NoMemory
    }
}

impl From<NoMemory> for Fault {
    fn from(_error: NoMemory) -> Self {
        Fault::NoMemory
    }
}
