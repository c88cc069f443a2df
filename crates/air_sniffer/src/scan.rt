// How a list of sends begins.
ghost use Rattle.std.specs.Prelude.{◌≡◌, ◌≤◌, ◌<◌, ◌++◌, true, false, length, IfOk};
ghost use Rattle.air_sniffer.specs.Head.{fits, head_fits, is_whole, is_open, begins_frame};
ghost use Rattle.air_sniffer.specs.Frames.{frame_of, begun, passed};

use crate::frame::MOST_PAYLOAD;
use crate::{Frame, Payload};
use air_base::Send;
use std::alloc::AllocError;

/// The most sends that may still become a frame: its head, and all of its payload except the last byte.
pub const MOST_OPEN: usize = 3 + MOST_PAYLOAD;

// Whether the byte at this place is one of these, if there is one.
fn fits(sends: &[Send], place: usize, least: u8, most: u8) -> bool
    ensures { result ≡ fits sends.now place least most }
{
    place >= sends.len() || (least <= sends[place].byte && sends[place].byte <= most)
}

// Whether the list begins as a frame does, as far as it goes.
#[tactic(auto, unfolding(crate::specs::Head::head_fits))]
fn head_fits(sends: &[Send]) -> bool
    ensures { result ≡ head_fits sends.now }
{
    fits(sends, 0, 0xAA, 0xAA)
        && fits(sends, 1, 0xAA, 0xAA)
        && fits(sends, 2, 0x7E, 0x7E)
        && fits(sends, 3, 1, MOST_PAYLOAD as u8)
}

// Whether a list that begins as a frame does has all of its bytes.
#[tactic(auto, unfolding(crate::specs::Head::is_whole))]
fn is_whole(sends: &[Send]) -> bool
    ensures { result ≡ is_whole sends.now }
{
    3 < sends.len() && 4 + usize::from(sends[3].byte) <= sends.len()
}

/// Whether more sends can make a frame of these, which are none yet.
pub fn is_open(sends: &[Send]) -> bool
    ensures { result ≡ is_open sends.now }
{
    head_fits(sends) && !is_whole(sends)
}

// Whether a frame's bytes begin the list.
fn begins_frame(sends: &[Send]) -> bool
    ensures { result ≡ begins_frame sends.now }
{
    head_fits(sends) && is_whole(sends)
}

// The frame whose bytes begin the list.
#[tactic(auto, unfolding(crate::specs::Frames::frame_of))]
fn frame_of(sends: &[Send]) -> Frame
    requires { begins_frame sends.now ≡ true }
    ensures { result ≡ frame_of sends.now }
{
    let end = 4 + usize::from(sends[3].byte);
    Frame {
        node: sends[0].node,
        cycle: sends[0].cycle,
        payload: Payload::of(&sends[4..end]),
    }
}

/// Takes the frame that begins the list, or passes over the first send. The answer is how many sends that were.
pub fn step(sends: &[Send], frames: &mut Vec<Frame>) -> Result<usize, AllocError>
    requires { 0 < length sends.now }
    ensures passed { IfOk result (λ n. n ≡ passed sends.now) }
    ensures frames { IfOk result (λ _. frames.new.items ≡ frames.old.items ++ begun sends.now) }
{
    if !begins_frame(sends) {
        return Ok(1);
    }
    frames.push(frame_of(sends))?;
    Ok(4 + usize::from(sends[3].byte))
}
