// The order of places.
ghost use Rattle.std.specs.Prelude.{◌≡◌, ◌≤◌};
ghost use Rattle.places_text.specs.Places.{rank};

use node_places::{Place, Spot};

// How many ranks each node has: as many as data addresses and word addresses.
const RANKS: u32 = 0x2_0000;

/// Where a place stands among all places: by its node, then bytes before instructions, then by its address.
pub fn rank(place: Place) -> u32
    ensures value { result ≡ rank place }
    ensures within { result ≤ 33554431 }
{
    let first = u32::from(place.node) * RANKS;
    match place.spot {
        Spot::Byte { address } => first + u32::from(address),
        Spot::At { address } => first + 0x1_0000 + u32::from(address),
    }
}
