//! A saved state of a run, as text and as a run that goes on from it.
#![tactic(auto)]

mod law;
mod onward;
mod reading;
mod saved;
mod writing;

pub use law::fit_law;
pub use onward::Onward;
pub use reading::{read_parts, read_state};
pub use saved::Saved;
pub use writing::{write_onward_state, write_state};
