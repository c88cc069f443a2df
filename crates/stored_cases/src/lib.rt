//! What the crates of stored cases share: why a run stops, the files of cases with their lines, words and numbers, how
//! many cases there were and which of them were wrong, the lines that are written, and a number for a text that is too
//! long to be written. `command_facts` runs all cases in one program.
#![tactic(auto)]

mod digest;
mod failed;
mod judged;
mod lines;
mod reading;
mod tally;
mod text_case;
mod writing;

pub use digest::Digest;
pub use failed::Failed;
pub use judged::{Judge, Verdict, judge_file};
pub use lines::{LineCases, do_lines};
pub use reading::{bytes_of, hex_digit, hex_pair, is_told, numbers_of, text_of, words_of};
pub use tally::Tally;
pub use text_case::TextCase;
pub use writing::{tell_run, write_line, write_number};
