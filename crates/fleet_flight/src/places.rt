// What is seen at places of a node.
ghost use Rattle.std.specs.Prelude.{◌≡◌, ◌≤◌, ◌<◌, ◌++◌, ℕ, List, length, slice_index, true, IfOk, OnOk};
ghost use Rattle.std.specs.List.{All};
ghost use Rattle.data_space.specs.declared.regions.TheConstants.{SRAM_LAST};
ghost use Rattle.node_places.specs.declared.Change.{Change};
ghost use Rattle.fleet_flight.specs.Shadows.{AreBytes, AreGrouped, Compared, IsSpot, seen_of_all};
ghost use Rattle.fleet_flight.specs.Watched.{byte_at, byte_of, seen_from, seen_if};

use crate::sights::{Sights, begins_none, is_still};
use avr_base::NoMemory;
use data_space::SRAM_START;
use node_core::Node;
use node_places::{Change, Place, Seen, Spot};

// The byte of its data space at an address.
#[tactic(auto, unfolding(crate::specs::Watched::byte_at))]
fn byte_at(node: &Node, at: u16) -> u8
    requires { at ≤ SRAM_LAST }
    ensures { result ≡ byte_at at node.now.state }
{
    if at >= SRAM_START {
        return node.sram(at);
    }
    if at < 0x20 {
        return node.cpu().r[usize::from(at)];
    }
    match at {
        0x5D => (node.cpu().sp % 256) as u8,
        0x5E => (node.cpu().sp / 256) as u8,
        0x5F => node.cpu().sreg.bits,
        _ => node.io(at),
    }
}

/// What of a node is looked at before a cycle, to see what the cycle changes.
pub fn byte_of(node: &Node, spot: Spot) -> u8
    requires { IsSpot spot }
    ensures { result ≡ byte_of spot node.now.state }
{
    match spot {
        Spot::Byte { address } => byte_at(node, address),
        Spot::At { .. } => 0,
    }
}

// Puts a change behind the others, where there is one.
fn put(changes: &mut Vec<Change>, cycle: u64, node: u8, seen: Seen) -> Result<(), NoMemory>
    ensures { OnOk result (changes.new.items ≡ changes.old.items ++ seen_if true cycle node seen) }
{
    if changes.push(Change { cycle, node, seen }).is_err() {
        return Err(NoMemory);
    }
    Ok(())
}

// Puts behind the others what is seen at a place in a cycle, which brought the node to where it is; before it the byte
// was `was`, and an instruction began at `begun`. The byte that it is now.
fn compare_one(
    place: Place,
    was: u8,
    begun: Option<u16>,
    cycle: u64,
    node: &Node,
    changes: &mut Vec<Change>,
) -> Result<u8, NoMemory>
    requires { IsSpot place.spot }
    ensures seen { OnOk result (changes.new.items ≡ changes.old.items ++ seen_from place.spot cycle place.node was begun node.now.state) }
    ensures byte { IfOk result (λ byte. byte ≡ byte_of place.spot node.now.state) }
{
    match place.spot {
        Spot::Byte { address } => {
            let byte = byte_at(node, address);
            if byte != was {
                put(changes, cycle, place.node, Seen::Byte { address, byte })?;
            }
            Ok(byte)
        }
        Spot::At { address } => {
            if begun == Some(address) {
                put(changes, cycle, place.node, Seen::At { address })?;
            }
            Ok(0)
        }
    }
}

// Looks at the places from `from` on and below `to`, one by one. `last` is what was looked at before the cycle, and is then
// what is looked at now.
fn compare_each(
    places: &[Place],
    from: usize,
    to: usize,
    last: &mut Vec<u8>,
    begun: Option<u16>,
    cycle: u64,
    node: &Node,
    changes: &mut Vec<Change>,
) -> Result<(), NoMemory>
    requires count { length last.old.items ≡ length places.now }
    requires within { to ≤ length places.now }
    requires order { from ≤ to }
    requires spots { All (λ p. IsSpot p.spot) places.now }
    ensures { OnOk result ((xs : List ℕ) (cs : List Change) → Compared places.now xs begun cycle node.now.state cs from last.old.items changes.old.items → Compared places.now xs begun cycle node.now.state cs to last.new.items changes.new.items) }
{
    for k in from..to {
        last[k] = compare_one(places[k], last[k], begun, cycle, node, changes)?;
    }
    Ok(())
}

// The same of the places before the bytes of the SRAM, if there are some.
fn compare_others(
    places: &[Place],
    sights: &Sights,
    last: &mut Vec<u8>,
    begun: Option<u16>,
    cycle: u64,
    node: &Node,
    changes: &mut Vec<Change>,
) -> Result<(), NoMemory>
    requires count { length last.old.items ≡ length places.now }
    requires within { sights.now.sram ≤ length places.now }
    requires spots { All (λ p. IsSpot p.spot) places.now }
    ensures { OnOk result ((xs : List ℕ) (cs : List Change) → Compared places.now xs begun cycle node.now.state cs 0 last.old.items changes.old.items → Compared places.now xs begun cycle node.now.state cs sights.now.sram last.new.items changes.new.items) }
{
    if sights.sram == 0 {
        return Ok(());
    }
    compare_each(places, 0, sights.sram, last, begun, cycle, node, changes)
}

// The same of the bytes of the SRAM: mostly all are as they were.
fn compare_sram(
    places: &[Place],
    sights: &Sights,
    last: &mut Vec<u8>,
    begun: Option<u16>,
    cycle: u64,
    node: &Node,
    changes: &mut Vec<Change>,
) -> Result<(), NoMemory>
    requires count { length last.old.items ≡ length places.now }
    requires grouped { AreGrouped places.now sights.now }
    requires spots { All (λ p. IsSpot p.spot) places.now }
    ensures { OnOk result ((xs : List ℕ) (cs : List Change) → Compared places.now xs begun cycle node.now.state cs sights.now.sram last.old.items changes.old.items → Compared places.now xs begun cycle node.now.state cs sights.now.at last.new.items changes.new.items) }
{
    if is_still(&sights.keys, last, sights.sram, sights.at, node) {
        return Ok(());
    }
    compare_each(
        places,
        sights.sram,
        sights.at,
        last,
        begun,
        cycle,
        node,
        changes,
    )
}

// The same of the instructions: mostly another begins, or none.
fn compare_begun(
    places: &[Place],
    sights: &Sights,
    last: &mut Vec<u8>,
    begun: Option<u16>,
    cycle: u64,
    node: &Node,
    changes: &mut Vec<Change>,
) -> Result<(), NoMemory>
    requires count { length last.old.items ≡ length places.now }
    requires grouped { AreGrouped places.now sights.now }
    requires none { (j : ℕ) → sights.now.at ≤ j → j < length places.now → slice_index last.old.items j ≡ 0 }
    requires spots { All (λ p. IsSpot p.spot) places.now }
    ensures { OnOk result ((xs : List ℕ) (cs : List Change) → Compared places.now xs begun cycle node.now.state cs sights.now.at last.old.items changes.old.items → Compared places.now xs begun cycle node.now.state cs (length places.now) last.new.items changes.new.items) }
{
    if begins_none(&sights.keys, sights.at, begun) {
        return Ok(());
    }
    compare_each(
        places,
        sights.at,
        places.len(),
        last,
        begun,
        cycle,
        node,
        changes,
    )
}

/// Puts behind the others what is seen in a cycle, which brought the node to where it is, in the order of the places.
/// `last` is what was looked at before it, and is then what is looked at now.
pub fn compare(
    places: &[Place],
    sights: &Sights,
    last: &mut Vec<u8>,
    begun: Option<u16>,
    cycle: u64,
    node: &Node,
    changes: &mut Vec<Change>,
) -> Result<(), NoMemory>
    requires count { length last.old.items ≡ length places.now }
    requires grouped { AreGrouped places.now sights.now }
    requires none { (j : ℕ) → sights.now.at ≤ j → j < length places.now → slice_index last.old.items j ≡ 0 }
    requires spots { All (λ p. IsSpot p.spot) places.now }
    ensures seen { OnOk result (changes.new.items ≡ changes.old.items ++ seen_of_all places.now last.old.items begun cycle node.now.state) }
    ensures last { OnOk result (AreBytes places.now node.now.state last.new.items) }
{
    compare_others(places, sights, last, begun, cycle, node, changes)?;
    compare_sram(places, sights, last, begun, cycle, node, changes)?;
    compare_begun(places, sights, last, begun, cycle, node, changes)?;
    Ok(())
}
