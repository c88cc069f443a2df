//! What is sent over the air and what is heard, how far clocks go, and what a node is to the order of all nodes: one cycle
//! of it, and many cycles of one node by itself. Devices and nodes stand on this alone; who hears whom, and the order, are above.
#![tactic(auto)]

mod air;
mod bounds;

pub use air::{Ask, Heard, Sampled, Send};
pub use bounds::{
    LAST_CYCLE, LAST_END, LAST_SHORT_CYCLE, LONGEST_BYTE, LONGEST_LATENCY, MOST_NODES,
    SHORTEST_BYTE,
};
