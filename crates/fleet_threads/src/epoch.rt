// What is the same for all nodes of an epoch.
use node_runner::Scenario;
use std::sync::atomic::AtomicU64;

/// The number of no node: none was refused yet.
pub const NOBODY: u64 = u64::MAX;

/// An epoch of a scenario: what all its nodes share, but for the air. Cycles go from 0 to the scenario's limit.
#[derive(Drop)]
pub struct Epoch<'s, R, G> {
    /// What begins threads, and waits.
    pub rt: &'s R,
    /// Who is told of the nodes' turns.
    pub gate: &'s G,
    pub scenario: &'s Scenario,
    /// The number of the node for which no thread was found last, or `NOBODY`.
    pub refused: &'s AtomicU64,
    /// The cycle from which it goes.
    pub floor: u64,
    /// The cycle up to which it goes.
    pub end: u64,
}
