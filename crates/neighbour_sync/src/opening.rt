// The air of a world, when nothing has happened yet.
ghost use Rattle.std.specs.Prelude.{◌≡◌, [], IfOk};
ghost use Rattle.std.specs.List.{All};
ghost use Rattle.std.specs.Arc.{arc_value};
ghost use Rattle.neighbour_sync.specs.Seats.{AreFirstNodes};
ghost use Rattle.neighbour_sync.specs.Record.{first_record};

use crate::node::NodeAir;
use crate::{Air, Clocks, NodeSeat};
use std::alloc::Global;
use std::sync::Arc;
use world_core::{NoMemory, Topo, World};

// The part of the node with this seat.
fn node_air(topo: &Arc<Topo>, seat: NodeSeat) -> Result<NodeAir, NoMemory>
    requires { arc_value topo.now ≡ seat.world.topo }
    ensures { IfOk result (λ n. n ≡ seat) }
{
    match Arc::try_clone(topo) {
        Ok(topo) => Ok(NodeAir::of(seat, topo)),
        Err(_) => Err(NoMemory),
    }
}

// The topology of the world, for all nodes.
fn shared_topo<W: World>(alloc: Global, world: &W) -> Result<Arc<Topo>, NoMemory>
    ensures { IfOk result (λ t. arc_value t ≡ (W.facts world.now).topo) }
{
    match Arc::new(alloc, world.topo().copy()?) {
        Ok(topo) => Ok(topo),
        Err(_) => Err(NoMemory),
    }
}

// The node's parts with these seats.
fn node_airs<W: World>(
    alloc: Global,
    world: &W,
    seats: Vec<NodeSeat>,
) -> Result<Vec<NodeAir>, NoMemory>
    requires { All (λ s. s.world ≡ W.facts world.now) seats.items }
    ensures { IfOk result (λ v. v.items ≡ seats.items) }
{
    let topo = shared_topo(alloc, world)?;
    let mut nodes = Vec::new(alloc);
    for seat in seats {
        if nodes.push(node_air(&topo, seat)?).is_err() {
            return Err(NoMemory);
        }
    }
    Ok(nodes)
}

/// The clock words of a world, its record, and the part of each node, in order of number. All are of one table and of
/// this world; nothing is sent, sampled or passed yet. After `NoMemory` nothing is left of it.
pub fn open_air<W: World>(
    alloc: Global,
    world: &W,
) -> Result<(Clocks<W>, Air, Vec<NodeAir>), NoMemory>
    ensures world { IfOk result (λ r. r.0.world ≡ W.facts world.now) }
    ensures record { IfOk result (λ r. r.1 ≡ first_record r.0.table (W.facts world.now) []) }
    ensures nodes { IfOk result (λ r. AreFirstNodes r.0.table (W.facts world.now) r.2.items) }
{
    let (clocks, seats, seat) = Clocks::new(alloc, world)?;
    let air = Air::new(alloc, world, seat)?;
    let nodes = node_airs(alloc, world, seats)?;
    Ok((clocks, air, nodes))
}
