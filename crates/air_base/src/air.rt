// What is sent over the air, and what is heard.

/// A byte that a node sends over the air.
#[derive(Clone, Copy, PartialEq, Eq)]
pub struct Send {
    /// The number of the node that sends.
    pub node: u8,
    /// The cycle in which it sends.
    pub cycle: u64,
    /// What it sends.
    pub byte: u8,
}

/// A cycle in which a node samples the air.
#[derive(Clone, Copy, PartialEq, Eq)]
pub struct Ask {
    /// The number of the node that samples.
    pub node: u8,
    /// The cycle in which it samples.
    pub cycle: u64,
}

/// What a node hears in one cycle.
#[derive(Clone, Copy, Debug, PartialEq, Eq)]
pub struct Heard {
    /// 0 where nothing is heard, 1 where one byte is, 2 where several bytes clash.
    pub status: u8,
    /// The byte; where several clash the OR of them, and 0 where nothing is heard.
    pub byte: u8,
    /// How long the byte has been heard, in steps of 16 cycles and at most 255; 0 where none or several are heard.
    pub age: u8,
}

/// The answer to a node that samples the air.
#[derive(Clone, Copy)]
pub enum Sampled {
    /// What it hears.
    Heard(Heard),
    /// That cannot be told yet: node `node` may still send what would be heard, since its clock is at the cycle
    /// `clock`.
    NotYet {
        /// The lowest number of such a node.
        node: u8,
        /// Its clock, in cycles.
        clock: u64,
    },
    /// There was no memory to keep the sample, and nothing has changed.
    NoMemory,
}
