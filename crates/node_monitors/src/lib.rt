//! Monitors over the rows of a trace: on what a node spent each cycle of the window. A row in which the node executes
//! an instruction, enters an interrupt or stops has all cycles up to the next such row. `specs/` asks each cycle for
//! its row; the code goes over the rows once, and subtracts the cycles of neighbouring rows: from the last one back where
//! all are there (`Profile::of`), or as they come, and drops them (`Tally`).
#![tactic(auto)]

mod laws;
mod ledger;
mod needed;
mod profile;
mod spent;
mod tally;

pub use laws::{tally_law, whole_law};
pub use needed::{matters, matters_law};
pub use profile::Profile;
pub use spent::{AWAKE_CHARGE, SENT_CHARGE, Spent};
pub use tally::Tally;
