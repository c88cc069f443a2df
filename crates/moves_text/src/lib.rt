//! The text of a sweep's moves, over plain data: a line a run, which names a node and the bytes that arrive there in
//! place of its own input. It is read line by line; the first faulty line decides what is wrong with a text.
#![tactic(auto)]

mod fault;
mod moves;
mod reading;
mod room;
mod words;

pub use fault::{LineFault, MovesFault};
pub use moves::Move;
pub use reading::read;
