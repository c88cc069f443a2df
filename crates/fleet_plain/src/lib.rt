//! All nodes of a scenario from reset on, on one thread. A run goes in epochs, whose rows are given as they are complete.
#![tactic(auto)]

mod begun;
mod plain;

pub use begun::AtReset;
pub use plain::{PlainRun, run_plain};
