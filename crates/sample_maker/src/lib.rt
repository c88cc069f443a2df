//! A large network from a number, the same on every machine: a ring of nodes that send and sample the air without end.
//! And how often the nodes of a run sent, and what they heard: four counts by which two runs of a sample are compared.
#![tactic(auto)]

mod counts;
mod network;
mod ring;
mod sample;

pub use counts::{Counts, count};
pub use network::each_node_hears_the_one_before;
pub use sample::make;
