//! The instructions of the AVR core: which one a program word is, how many words it takes, and what class it is of.
//! All calls are total and take no memory.
#![tactic(auto)]

mod classify;
mod decoding;
mod fields;
mod op;

pub use classify::class;
pub use decoding::{decode, one_row_at_most, width};
pub use op::{Class, Op};
