//! The text of a trace: one line for each row, written to a sink over pages.
#![tactic(auto)]

mod line;
mod trace;

pub use trace::write;
