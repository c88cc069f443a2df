// What the calls of the record answer, and what a node is answered that samples the air.
use air_base::Heard;

/// The answer to a node that samples the air.
#[derive(Clone, Copy)]
pub enum SampleOutcome {
    /// What the node hears, which is recorded.
    Heard(Heard),
    /// A node has told all nodes to halt, and this one has recorded nothing.
    Halted,
    /// There was no memory to keep the sample, and the record is as it was.
    NoMemory,
}

/// The answer to a node that posts a send.
#[derive(Clone, Copy)]
pub enum Posted {
    /// The send is recorded now.
    Added,
    /// It was recorded before.
    There,
    /// Sends of this node that come before it are not posted yet: only `count` of them are.
    Early {
        /// How many sends of the node are posted.
        count: u64,
    },
}

/// A node that is not far enough, and its clock as it was loaded.
#[derive(Clone, Copy)]
pub struct Behind {
    /// The number of the node.
    pub node: u8,
    /// Its clock, in cycles.
    pub clock: u64,
}
