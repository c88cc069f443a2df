// The reading of places.
ghost use Rattle.std.specs.Prelude.{◌≡◌, ◌≤◌, ◌+◌, IfOk};
ghost use Rattle.std.specs.List.{All};
ghost use Rattle.state_text.specs.Parts.{parts_of, pieces_of};
ghost use Rattle.places_text.specs.Known.{IsKnown};
ghost use Rattle.places_text.specs.Places.{next_place, places_from, places_in, rank};
ghost use Rattle.places_text.specs.Reading.{Gives};

use crate::fault::{LineFault, PlacesFault};
use crate::order::rank;
use crate::words::place_of;
use node_places::Place;
use state_text::cut;
use std::alloc::Global;

/// The most lines of a text.
const MOST_LINES: usize = 8_192;

// The place of a line, whose rank is to be `least` or above it.
#[tactic(auto, unfolding(crate::specs::Places::next_place))]
fn next_place(nodes: u8, line: usize, least: u32, text: &[u8]) -> Result<(Place, u32), PlacesFault>
    ensures exact { Gives (λ x. x.0) result (next_place nodes line least (parts_of text.now)) }
    ensures known { IfOk result (λ x. IsKnown nodes x.0) }
    ensures next { IfOk result (λ x. x.1 ≡ rank x.0 + 1) }
{
    if line > MOST_LINES {
        return Err(LineFault::TooMany.at(line));
    }
    let place = place_of(line, nodes, text)?;
    let own = rank(place);
    if own < least {
        return Err(LineFault::Unordered.at(line));
    }
    Ok((place, own + 1))
}

// The places of all lines.
fn places_of(alloc: Global, nodes: u8, text: &[u8]) -> Result<Vec<Place>, PlacesFault>
    ensures exact { Gives (λ places. places.items) result (places_from nodes 1 0 (pieces_of text.now)) }
    ensures known { IfOk result (λ places. All (IsKnown nodes) places.items) }
{
    let mut places = Vec::new(alloc);
    let mut line = 1;
    let mut least = 0;
    let mut rest = text;
    while !rest.is_empty() {
        let Some((words, behind)) = cut(b'\n', rest) else {
            return Err(LineFault::BadLine.at(line));
        };
        let (place, next) = next_place(nodes, line, least, words)?;
        places.push(place)?;
        least = next;
        line += 1;
        rest = behind;
    }
    Ok(places)
}

/// The places that a text says for a network of so many nodes, or its first fault.
#[tactic(auto, unfolding(crate::specs::Places::places_in))]
pub fn read(alloc: Global, nodes: u8, text: &[u8]) -> Result<Vec<Place>, PlacesFault>
    ensures exact { Gives (λ places. places.items) result (places_in nodes text.now) }
    ensures known { IfOk result (λ places. All (IsKnown nodes) places.items) }
{
    if text.is_empty() {
        return Err(PlacesFault::Empty);
    }
    places_of(alloc, nodes, text)
}
