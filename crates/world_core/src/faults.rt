// Why a topology or a world is refused, and the answer to want of memory.
use std::alloc::AllocError;

/// Why a topology is refused.
#[derive(Clone, Copy)]
pub enum TopoFault {
    /// A number is out of its range, or a link ends at a node that there is not.
    Range,
    /// The link at this place, counted from 0, goes from a node to itself.
    SelfLink {
        /// The place in the list of links.
        place: usize,
    },
    /// The link at this place, counted from 0, equals an earlier one.
    TwiceLinked {
        /// The place in the list of links.
        place: usize,
    },
}

/// Why the lists of a world are refused.
#[derive(Clone, Copy)]
pub enum WorldFault {
    /// The send at this place, counted from 0, is the first that breaks a law.
    SendOrder {
        /// The place in the list of sends.
        place: usize,
    },
    /// No send breaks a law, and the sample at this place, counted from 0, is the first that does.
    AskOrder {
        /// The place in the list of samples.
        place: usize,
    },
}

/// An allocation was refused. Calls that answer it say what state they leave.
#[derive(Clone, Copy)]
pub struct NoMemory;

impl From<AllocError> for NoMemory {
    fn from(_error: AllocError) -> Self {
        NoMemory
    }
}
