//! A program as a processor reads it: its flash, and beside it the instruction at each of its word addresses, decoded
//! once. A node cannot write its program memory, so they never change, and nodes with equal images share one program.
#![tactic(auto)]

mod decoded;
mod program;

pub use decoded::Slot;
pub use program::Program;
