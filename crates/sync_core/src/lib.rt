//! Clocks, sends and samples of a network as one state machine on one thread: whatever list of allowed steps it takes,
//! each sample that it records is the true one.
#![tactic(auto)]

mod behind;
mod law;
mod machine;
mod run;
mod steps;

pub use law::{any_order_law, never_stuck_law};
pub use machine::Core;
pub use run::replay;
pub use steps::{ReplayFault, Step};
