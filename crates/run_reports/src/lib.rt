//! What is written of a run in place of its trace: the profile of each node over the window (`profiles_of`), and the
//! frames that each node sent (`frames_of`). The rows of a run come in pieces, of which only what is asked for is kept:
//! the sums of each node (`tally_rows`); the frames, and at most 35 sends of each node (`feed_rows`).
#![tactic(auto)]

mod frame_lines;
mod law;
mod profile_lines;
mod profiles;
mod sniffing;
mod sniffs;

pub use law::sends_law;
pub use profiles::{profiles_of, tally_all, tally_rows};
pub use sniffing::Sniffing;
pub use sniffs::{feed_rows, frames_of, sniff_all};
