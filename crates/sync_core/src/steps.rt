// The steps of the core, and why a list of them is refused.

/// One step of the core.
#[derive(Clone, Copy)]
pub enum Step {
    /// A node raises its clock.
    Raise {
        /// The number of the node.
        node: u8,
        /// Its new clock, in cycles.
        clock: u64,
    },
    /// A node posts its next send.
    Post {
        /// The number of the node.
        node: u8,
    },
    /// A node samples the air.
    Sample {
        /// The number of the node.
        node: u8,
        /// The cycle in which it samples.
        cycle: u64,
    },
}

/// Why a list of steps is not replayed.
#[derive(Clone, Copy)]
pub enum ReplayFault {
    /// The step at this place, counted from 0, is the first that is not allowed.
    Illegal {
        /// The place in the list of steps.
        place: usize,
    },
    /// An allocation was refused.
    NoMemory,
}
