// The shadows with which a run's nodes are watched from the cycle on that they have reached.
ghost use Rattle.std.specs.Prelude.{◌≡◌, ◌<◌, ◌≤◌, ◌++◌, length, IfOk, OnOk};
ghost use Rattle.std.specs.List.{All};
ghost use Rattle.fleet_flight.specs.Shadows.{IsNew, IsShadow, IsSpot, IsStill, group_of, groups_of};
ghost use Rattle.fleet_flight.specs.Watched.{group_with, groups_in, places_of};
ghost use Rattle.air_base.specs.declared.bounds.TheConstants.{MOST_NODES};

use crate::Shadow;
use avr_base::NoMemory;
use node_core::Node;
use node_places::Place;
use std::alloc::{AllocError, Global};

// Only the places of one node are left.
fn keep_own(places: &mut Vec<Place>, number: u8)
    ensures { places.new.items ≡ places_of number places.old.items }
{
    places.retain(|p| p.node == number);
}

// The places of one node among these.
fn places_of(alloc: Global, number: u8, places: &[Place]) -> Result<Vec<Place>, AllocError>
    ensures { IfOk result (λ v. v.items ≡ places_of number places.now) }
{
    let mut own = Vec::new(alloc);
    own.extend_from_slice(places)?;
    keep_own(&mut own, number);
    Ok(own)
}

// The shadow of a node at these places.
fn shadow_of(alloc: Global, node: &Node, number: u8, places: Vec<Place>) -> Result<Shadow, NoMemory>
    requires still { IsStill node.now }
    requires spots { All (λ p. IsSpot p.spot) places.items }
    ensures shadow { IfOk result (λ v. IsShadow v) }
    ensures node { IfOk result (λ v. v.node ≡ node.now) }
    ensures group { IfOk result (λ v. group_of v ≡ record { node = number; places = places.items }) }
{
    let other = node.copy(alloc)?;
    Shadow::new(alloc, other, number, places)
}

// Puts the shadow of node `number` behind the others, where the node has places among these.
fn put_shadow(
    alloc: Global,
    nodes: &[Node],
    number: u8,
    places: &[Place],
    shadows: &mut Vec<Shadow>,
) -> Result<(), NoMemory>
    requires within { number < length nodes.now }
    requires still { All IsStill nodes.now }
    requires spots { All (λ p. IsSpot p.spot) places.now }
    requires each { All (IsNew nodes.now) shadows.old.items }
    ensures groups { OnOk result (groups_of shadows.new.items ≡ groups_of shadows.old.items ++ group_with number (places_of number places.now)) }
    ensures each { OnOk result (All (IsNew nodes.now) shadows.new.items) }
{
    let own = places_of(alloc, number, places)?;
    if own.is_empty() {
        return Ok(());
    }
    let shadow = shadow_of(alloc, &nodes[usize::from(number)], number, own)?;
    if shadows.push(shadow).is_err() {
        return Err(NoMemory);
    }
    Ok(())
}

/// The shadows of those of these nodes that have places among these, in order of number.
pub fn shadows_of(alloc: Global, nodes: &[Node], places: &[Place]) -> Result<Vec<Shadow>, NoMemory>
    requires still { All IsStill nodes.now }
    requires few { length nodes.now ≤ MOST_NODES }
    requires spots { All (λ p. IsSpot p.spot) places.now }
    ensures groups { IfOk result (λ v. groups_of v.items ≡ groups_in (length nodes.now) places.now) }
    ensures each { IfOk result (λ v. All (IsNew nodes.now) v.items) }
{
    let mut shadows = Vec::new(alloc);
    for k in 0..nodes.len() {
        put_shadow(alloc, nodes, k as u8, places, &mut shadows)?;
    }
    Ok(shadows)
}
