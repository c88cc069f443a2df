// Why a stored run stops.
use avr_base::NoMemory;
use sim_io::SinkFault;
use std::alloc::{AllocError, AllocFailed};

/// Why a stored run writes no more: a line that is none, a case that is wrong, a file that cannot be read, want of
/// memory, or an output that fails.
#[derive(Drop)]
pub struct Failed;

impl From<SinkFault> for Failed {
    fn from(_fault: SinkFault) -> Self {
        Failed
    }
}

impl From<AllocError> for Failed {
    fn from(_error: AllocError) -> Self {
        Failed
    }
}

impl<T: Drop> From<AllocFailed<T>> for Failed {
    fn from(_failed: AllocFailed<T>) -> Self {
        Failed
    }
}

impl From<NoMemory> for Failed {
    fn from(_error: NoMemory) -> Self {
        Failed
    }
}
