// What stands in a line: a node, and a byte or an instruction of it.
ghost use Rattle.std.specs.Prelude.{◌≡◌, ◌<◌, IfOk};
ghost use Rattle.state_text.specs.Parts.{parts_of};
ghost use Rattle.places_text.specs.Known.{IsKnown, IsSpot};
ghost use Rattle.places_text.specs.Places.{byte_in, at_in, node_in, place_of, spot_in};
ghost use Rattle.places_text.specs.Reading.{Gives};

use crate::addresses::{address_of, is_byte};
use crate::fault::{LineFault, PlacesFault};
use node_places::{Place, Spot};
use state_text::{Parts, is_decimal, value};

// The node that a word is, one of so many.
#[tactic(auto, unfolding(crate::specs::Places::node_in))]
fn node_in(line: usize, nodes: u8, word: &[u8]) -> Result<u8, PlacesFault>
    ensures exact { Gives (λ node. node) result (node_in line nodes word.now) }
    ensures known { IfOk result (λ node. node < nodes) }
{
    if !is_decimal(word) {
        return Err(LineFault::BadLine.at(line));
    }
    match value(word) {
        None => Err(LineFault::NoNode.at(line)),
        Some(node) => {
            if node >= u64::from(nodes) {
                return Err(LineFault::NoNode.at(line));
            }
            Ok(node as u8)
        }
    }
}

// The byte at the data address that a word is.
#[tactic(auto, unfolding(crate::specs::Places::byte_in))]
fn byte_in(line: usize, word: &[u8]) -> Result<Spot, PlacesFault>
    ensures exact { Gives (λ spot. spot) result (byte_in line word.now) }
    ensures known { IfOk result IsSpot }
{
    match address_of(word) {
        None => Err(LineFault::BadLine.at(line)),
        Some(address) => {
            if !is_byte(address) {
                return Err(LineFault::NoPlace.at(line));
            }
            Ok(Spot::Byte { address })
        }
    }
}

// The instruction at the word address that a word is.
#[tactic(auto, unfolding(crate::specs::Places::at_in))]
fn at_in(line: usize, word: &[u8]) -> Result<Spot, PlacesFault>
    ensures exact { Gives (λ spot. spot) result (at_in line word.now) }
    ensures known { IfOk result IsSpot }
{
    match address_of(word) {
        None => Err(LineFault::BadLine.at(line)),
        Some(address) => Ok(Spot::At { address }),
    }
}

// What of a node two words are.
#[tactic(auto, unfolding(crate::specs::Places::spot_in))]
fn spot_in(line: usize, kind: &[u8], address: &[u8]) -> Result<Spot, PlacesFault>
    ensures exact { Gives (λ spot. spot) result (spot_in line kind.now address.now) }
    ensures known { IfOk result IsSpot }
{
    if kind == b"byte".as_slice() {
        return byte_in(line, address);
    }
    if kind == b"at".as_slice() {
        return at_in(line, address);
    }
    Err(LineFault::BadLine.at(line))
}

/// The place of a line.
#[tactic(auto, unfolding(crate::specs::Places::place_of))]
pub fn place_of(line: usize, nodes: u8, text: &[u8]) -> Result<Place, PlacesFault>
    ensures exact { Gives (λ place. place) result (place_of line nodes (parts_of text.now)) }
    ensures known { IfOk result (IsKnown nodes) }
{
    let Some((node, kind, address)) = Parts::of(text).three() else {
        return Err(LineFault::BadLine.at(line));
    };
    let node = node_in(line, nodes, node)?;
    let spot = spot_in(line, kind, address)?;
    Ok(Place { node, spot })
}
