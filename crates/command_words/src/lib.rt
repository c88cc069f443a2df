//! The words of a command line: which lists of words are accepted, and what each of them asks for. A list is refused by
//! a test of the words alone; an accepted one is split by `clap`.
#![tactic(auto)]

mod accepted;
mod building;
mod command;
mod operands;
mod reading;
mod splitting;
mod words;

pub use command::Command;
pub use operands::MOST_EPOCHS;
pub use splitting::read_words;
pub use words::words_given;
