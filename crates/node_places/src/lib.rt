//! What of a network is watched, and what is then seen: bytes of the data space that change, and instructions that begin.
#![tactic(auto)]

/// What of a node is watched.
#[derive(Clone, Copy, PartialEq, Eq, Debug)]
pub enum Spot {
    /// The byte at a data address.
    Byte {
        /// The address.
        address: u16,
    },
    /// The instruction at a word address.
    At {
        /// The address.
        address: u16,
    },
}

/// A place of a network that is watched.
#[derive(Clone, Copy, PartialEq, Eq, Debug)]
pub struct Place {
    /// The number of the node.
    pub node: u8,
    /// What of it.
    pub spot: Spot,
}

/// What is seen at a place.
#[derive(Clone, Copy, PartialEq, Eq, Debug)]
pub enum Seen {
    /// The byte at a data address became another.
    Byte {
        /// The address.
        address: u16,
        /// The byte that it is now.
        byte: u8,
    },
    /// The instruction at a word address begins.
    At {
        /// The address.
        address: u16,
    },
}

/// A change: what is seen at a place in a cycle.
#[derive(Clone, Copy, PartialEq, Eq, Debug)]
pub struct Change {
    /// The cycle. A byte is as it is said to be when the next one begins.
    pub cycle: u64,
    /// The number of the node.
    pub node: u8,
    /// What is seen.
    pub seen: Seen,
}
