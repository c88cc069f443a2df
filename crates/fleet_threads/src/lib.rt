//! All nodes of a scenario on threads of their own. A run goes in epochs; in each, every node steps by itself, tells
//! the others by its clock word how far it is, and waits only at a sample, for the clocks of those that it hears. When
//! all threads of an epoch are joined, its rows are put in the single global order.
#![tactic(auto)]

mod ending;
mod epoch;
mod gate;
mod member;
mod parts;
mod run;
mod threads;

pub use gate::{Gate, OpenGate};
pub use run::{ThreadRun, run_threads};
