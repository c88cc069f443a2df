//! A sniffer of frames: it takes what one node sends, in pieces however they are cut, and gives the frames in it.
//!
//! A frame is the bytes AA, AA, 7E, n, and then n bytes of payload, where n is from 1 to 32. Frames are looked for from
//! the first send on; behind a frame the next is looked for, and a send that begins no frame is passed over.
#![tactic(auto)]

mod frame;
mod law;
mod scan;
mod sniffer;

pub use frame::{Frame, MOST_PAYLOAD, Payload};
pub use law::{cut_law, fed_law, frames_law, open_law, pieces_law};
pub use scan::MOST_OPEN;
pub use sniffer::Sniffer;
