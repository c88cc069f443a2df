// The clock words of two nodes that send nothing.
ghost use Rattle.std.specs.Prelude.{◌≡◌, [], IfSome};
ghost use Rattle.neighbour_sync.specs.Seats.{AreFirstNodes, first_node};

use list_world::ListWorld;
use neighbour_sync::{AirSeat, Clocks, NodeSeat};
use std::alloc::Global;
use world_core::Topo;

/// The clock words with all their seats.
#[derive(Drop)]
pub struct Words {
    /// The words.
    pub clocks: Clocks<ListWorld>,
    /// The air's seat.
    pub air: AirSeat,
    /// The seat of node 0.
    pub first: NodeSeat,
    /// The seat of node 1.
    pub second: NodeSeat,
    ghost tables: { (air.table ≡ clocks.table) × (first.table ≡ clocks.table) × (second.table ≡ clocks.table) },
    ghost worlds: { (air.world ≡ clocks.world) × (first.world ≡ clocks.world) × (second.world ≡ clocks.world) },
    ghost nodes: { clocks.world.topo.nodes ≡ 2 },
    ghost silent: { clocks.world.sends ≡ [] },
    ghost start: { (first.clock ≡ 0) × (second.clock ≡ 0) },
}

// A world of two nodes that send nothing, up to this cycle.
fn silent_world(alloc: Global, limit: u64) -> Option<ListWorld>
    ensures nodes { IfSome result (λ w. w.topo.nodes ≡ 2) }
    ensures limit { IfSome result (λ w. w.topo.limit ≡ limit) }
    ensures silent { IfSome result (λ w. w.sends ≡ []) }
{
    let topo = Topo::new(2, limit, 300, 256, Vec::new(alloc)).ok()?;
    ListWorld::new(topo, Vec::new(alloc), Vec::new(alloc)).ok()
}

// The seats of the nodes 0 and 1.
fn two_of(clocks: &Clocks<ListWorld>, mut seats: Vec<NodeSeat>) -> Option<(NodeSeat, NodeSeat)>
    requires { AreFirstNodes clocks.now.table clocks.now.world seats.items }
    ensures first { IfSome result (λ p. p.0 ≡ first_node clocks.now.table clocks.now.world 0) }
    ensures second { IfSome result (λ p. p.1 ≡ first_node clocks.now.table clocks.now.world 1) }
{
    // Only the contract names it.
    let _ = clocks;
    let second = seats.pop()?;
    let first = seats.pop()?;
    if seats.is_empty() {
        Some((first, second))
    } else {
        None
    }
}

/// The words of two silent nodes, up to this cycle. `None` where there is no memory, or no such topology.
pub fn open(alloc: Global, limit: u64) -> Option<Words>
    ensures { IfSome result (λ w. w.clocks.world.topo.limit ≡ limit) }
{
    let world = silent_world(alloc, limit)?;
    let (clocks, seats, air) = Clocks::new(alloc, &world).ok()?;
    let (first, second) = two_of(&clocks, seats)?;
    Some(Words {
        clocks,
        air,
        first,
        second,
    })
}
