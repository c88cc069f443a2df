// What stands in a line: numbers, bytes, and stretches of them.
ghost use Rattle.std.specs.Prelude.{◌≡◌, ◌<◌, ◌≤◌, length, option_map, IfOk, IfSome};
ghost use Rattle.moves_text.specs.Moves.{bytes_in, number_in, room_behind, stretch_in};
ghost use Rattle.moves_text.specs.Reading.{Gives, next_stretch};
ghost use Rattle.serial_ports.specs.declared.stretch.TheConstants.{MOST_ARRIVALS};

use crate::fault::{LineFault, MovesFault};
use crate::room::Room;
use air_base::LAST_CYCLE;
use hex::FromHexError;
use serial_ports::{LONGEST_EVERY, Stretch};
use state_text::{Parts, is_decimal, value};
use std::alloc::Global;

/// The number that a word of a line is, from `least` on and below `end`.
#[tactic(auto, unfolding(crate::specs::Moves::number_in))]
pub fn number_in(
    line: usize,
    fault: LineFault,
    least: u64,
    end: u64,
    word: &[u8],
) -> Result<u64, MovesFault>
    ensures exact { Gives (λ n. n) result (number_in line fault least end word.now) }
    ensures within { IfOk result (λ n. (least ≤ n) × (n < end)) }
{
    if !is_decimal(word) {
        return Err(LineFault::BadLine.at(line));
    }
    match value(word) {
        None => Err(fault.at(line)),
        Some(n) => {
            if n < least || n >= end {
                return Err(fault.at(line));
            }
            Ok(n)
        }
    }
}

// The bytes that a word of a line spells, at least one.
#[tactic(auto, unfolding(crate::specs::Moves::bytes_in))]
fn bytes_in(alloc: Global, line: usize, word: &[u8]) -> Result<Vec<u8>, MovesFault>
    ensures exact { Gives (λ bytes. bytes.items) result (bytes_in line word.now) }
    ensures some { IfOk result (λ bytes. 1 ≤ length bytes.items) }
{
    if word.is_empty() {
        return Err(LineFault::BadLine.at(line));
    }
    match hex::decode(alloc, word) {
        Ok(bytes) => Ok(bytes),
        Err(FromHexError::OutOfMemory) => Err(MovesFault::NoMemory),
        Err(_) => Err(LineFault::BadLine.at(line)),
    }
}

// The stretch of three words in the room that is left, and what is left behind it.
#[tactic(auto, unfolding(crate::specs::Moves::stretch_in, crate::specs::Moves::placed))]
fn stretch_in(
    alloc: Global,
    line: usize,
    room: Room,
    at: &[u8],
    every: &[u8],
    digits: &[u8],
) -> Result<(Stretch, Room), MovesFault>
    requires few { room.bytes ≤ MOST_ARRIVALS }
    ensures exact { Gives (λ x. x.0) result (stretch_in line room at.now every.now digits.now) }
    ensures behind { IfOk result (λ x. x.1 ≡ room_behind room x.0) }
    ensures few { IfOk result (λ x. x.1.bytes ≤ MOST_ARRIVALS) }
{
    let at = number_in(line, LineFault::OutOfRange, 0, LAST_CYCLE + 1, at)?;
    let every = number_in(line, LineFault::OutOfRange, 1, LONGEST_EVERY + 1, every)?;
    let bytes = bytes_in(alloc, line, digits)?;
    if at < room.from {
        return Err(LineFault::Unordered.at(line));
    }
    if bytes.len() > room.bytes {
        return Err(LineFault::TooLong.at(line));
    }
    let behind = room.behind(at, every, bytes.len());
    Ok((Stretch::new(at, every, bytes), behind))
}

/// The stretch of the next three words in the room that is left, and what is left behind it; `None` where no word is
/// left.
#[tactic(auto, unfolding(crate::specs::Reading::next_stretch))]
pub fn next_stretch(
    alloc: Global,
    line: usize,
    room: Room,
    words: &mut Parts<'_>,
) -> Result<Option<(Stretch, Room)>, MovesFault>
    requires few { room.bytes ≤ MOST_ARRIVALS }
    ensures exact { Gives (λ o. option_map (λ x. (x.0, words.new)) o) result (next_stretch line room words.old) }
    ensures behind { IfOk result (λ o. IfSome o (λ x. x.1 ≡ room_behind room x.0)) }
    ensures few { IfOk result (λ o. IfSome o (λ x. x.1.bytes ≤ MOST_ARRIVALS)) }
{
    let Some(at) = words.next() else {
        return Ok(None);
    };
    let Some(every) = words.next() else {
        return Err(LineFault::BadLine.at(line));
    };
    let Some(digits) = words.next() else {
        return Err(LineFault::BadLine.at(line));
    };
    match stretch_in(alloc, line, room, at, every, digits) {
        Ok(stretch) => Ok(Some(stretch)),
        Err(fault) => Err(fault),
    }
}
