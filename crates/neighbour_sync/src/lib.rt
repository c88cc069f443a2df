//! What the nodes of a network know of one another while each runs on a thread of its own. The clock words, which need
//! no lock: for each node a clock word, a word with the number of its posted sends and one by which others say that
//! they sleep until it is further, and one word by which any node halts all of them; they change under one rule, which
//! docs/AIR.md tells, and each call of `Clocks` that a seat is lent to is a step or two of it. The record of the air:
//! what was sent and sampled, in the order in which it was recorded, and kept so that each recorded sample is the true
//! one and no later entry can alter it. And the record under its lock, beside the clock words, with what a node does
//! with both: it raises its clock, posts what it sends, and samples the air, also while other threads do the same.
#![tactic(auto)]

mod answers;
mod clocks;
mod cutting;
mod law;
mod layout;
mod loading;
mod looking;
mod node;
mod open;
mod opening;
mod record;
mod rule;
mod seats;
mod session;
mod shared;
mod steps;

pub use answers::{Behind, Posted, SampleOutcome};
pub use clocks::Clocks;
pub use cutting::cut_when_passed;
pub use law::{state_law, step_law};
pub use node::NodeAir;
pub use opening::open_air;
pub use record::Air;
pub use seats::{AirSeat, NodeSeat};
pub use session::Session;
pub use shared::Shared;
