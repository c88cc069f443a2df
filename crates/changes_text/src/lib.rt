//! The text of what is seen at places that are watched: one line for each change, written to a sink over pages.
#![tactic(auto)]

mod line;
mod lines;

pub use lines::write;
