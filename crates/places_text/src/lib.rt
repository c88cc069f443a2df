//! The text of the places of a network that are watched: a line a place, in rising order. It is read line by line; the
//! first faulty line decides what is wrong with a text.
#![tactic(auto)]

mod addresses;
mod fault;
mod order;
mod reading;
mod words;

pub use fault::{LineFault, PlacesFault};
pub use reading::read;
