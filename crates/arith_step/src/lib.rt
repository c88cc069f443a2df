//! The results and flags of arithmetic, logic, shifts and products: one function for each rule of the AVR Instruction Set
//! Manual, over bytes and words. Each call is total and takes no memory.
#![tactic(auto)]

mod differences;
mod flags;
mod products;
mod shifts;
mod signed;
mod sums;
mod words;

pub use differences::{com, dec, neg, sub};
pub use products::{MulKind, mul};
pub use shifts::{asr, lsr, ror};
pub use sums::{add, inc, logic};
pub use words::{adiw, sbiw};
