//! The text of instructions, as a trace and a listing print it.
#![tactic(auto)]

mod parts;
mod show;

pub use show::{line, put_line, text};
