//! One node of the network, cycle by cycle: its processor, its devices, and the rows that it makes as it runs: what
//! happened, in which cycle, at which node. `specs/` says what one cycle of a node is; `Node` runs many, whole
//! instructions and sleep up to the next event of its devices. `trace_writer` writes the text of the rows.
#![tactic(auto)]

mod bus;
mod copying;
mod interrupts;
mod law;
mod machine;
mod node;
mod numbers;
mod pace;
mod processor;
mod restore;
mod row;
mod rows;

pub use avr_core::execute;
pub use bus::NodeBus;
pub use law::steady_law;
pub use node::{Node, Reached};
pub use numbers::{core_fits, ends_from};
pub use restore::RestoreFault;
pub use row::{Kind, NodeEnd, Row};
