//! The text of a saved state, over plain data: a cycle, each node's numbers and bytes, and the sends that may still be
//! heard. It is written by one spelling for each state, and read line by line; the first faulty line decides what is
//! wrong with a text.
#![tactic(auto)]

mod bounds;
mod cuts;
mod fault;
mod law;
mod lines;
mod nodes;
mod numbers;
mod page;
mod parts;
mod reading;
mod state;
mod writing;

pub use bounds::Bounds;
pub use cuts::cut;
pub use fault::StateFault;
pub use law::{again_law, spelling_law};
pub use nodes::Nodes;
pub use numbers::{is_decimal, value};
pub use parts::Parts;
pub use reading::read;
pub use state::{NodeParts, StateParts};
pub use writing::write;
