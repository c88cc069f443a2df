// The answer to want of memory.
use std::alloc::AllocError;

/// An allocation was refused. Calls that answer it say what state they leave.
#[derive(Clone, Copy)]
pub struct NoMemory;

impl From<AllocError> for NoMemory {
    fn from(_error: AllocError) -> Self {
        NoMemory
    }
}
