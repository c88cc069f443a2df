//! The rules of the air between the nodes of a network: who hears whom, what was sent, and what a node hears that
//! samples the air. The log of a network's sends in the order of their posting, with a way back along each node's own
//! sends, so that what a node hears is found by a few looks at its neighbours' sends, however long the record is. And
//! the single global order of cycles, which says what all nodes do, with its laws.
#![tactic(auto)]

mod faults;
mod global;
mod hear;
mod kept;
mod link_table;
mod listen;
mod log;
mod neighbours;
mod spans;
mod topo;
mod ways;
mod world;

pub use faults::{NoMemory, TopoFault, WorldFault};
pub use global::{lawful_law, resumption_law, truth_law};
pub use hear::heard_with;
pub use kept::{EPOCH, cut_law, kept_law, needed_law, part_law, room_law};
pub use link_table::Link;
pub use log::SendLog;
pub use spans::{MOST_SPANS, Span};
pub use topo::Topo;
pub use world::{World, WorldFacts};
