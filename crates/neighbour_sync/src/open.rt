// The words of a world, with all seats.
ghost use Rattle.std.specs.Prelude.{◌≡◌, ◌≤◌, [], IfOk, vec_capacity};
ghost use Rattle.world_core.specs.Lawful.{IsLawful};
ghost use Rattle.neighbour_sync.specs.Inside.{IsLaid};
ghost use Rattle.neighbour_sync.specs.Rule.{air_view};
ghost use Rattle.neighbour_sync.specs.Seats.{AreFirstNodes, first_air};

use crate::clocks::{Clocks, Words};
use crate::layout::count_words;
use crate::rule::{NextNode, View};
use crate::seats::{AirSeat, NodeSeat};
use atomic_table::{Seat, Table};
use std::alloc::{AllocError, Global};
use std::snapshot::Snapshot;
use world_core::{NoMemory, World};

// The table, all of whose words are 0, with its first seat.
fn lay<W: World>(
    alloc: Global,
    world: &W,
    nodes: u8,
) -> Result<(Words<W>, Seat<(), View>), AllocError>
    requires { nodes ≡ (W.facts world.now).topo.nodes }
    ensures { IfOk result (λ r. IsLaid r.0.shared.table_id.words nodes (W.facts world.now) × (r.0.shared.key.value ≡ world.now) × (r.1.table_id ≡ r.0.shared.table_id) × (r.1.me ≡ (air_view (W.facts world.now) 0, []))) }
{
    let words = vec![in alloc; 0u64; count_words(nodes)]?;
    let about = Snapshot::of(world);
    Table::of_words(alloc, words.as_slice(), &about)
}

// Makes a seat for each node, in order, by the table's first seat. There is room for them.
fn seat_nodes<W: World>(
    table: &Words<W>,
    first: &mut Seat<(), View>,
    seats: &mut Vec<NodeSeat>,
    nodes: u8,
)
    requires laid { IsLaid table.now.shared.table_id.words nodes (W.facts table.now.shared.key.value) }
    requires table { first.old.table_id ≡ table.now.shared.table_id }
    requires view { first.old.me ≡ (air_view (W.facts table.now.shared.key.value) 0, []) }
    requires room { (seats.old.items ≡ []) × (nodes ≤ vec_capacity seats.old) }
    ensures table { first.new.table_id ≡ first.old.table_id }
    ensures view { first.new.me ≡ (air_view (W.facts table.now.shared.key.value) nodes, []) }
    ensures seats { AreFirstNodes table.now.shared.table_id (W.facts table.now.shared.key.value) seats.new.items }
{
    for number in 0..nodes {
        let seat = table.shared.split_seat::<NextNode>(first);
        seats.push_reserved(NodeSeat::of(seat, number));
    }
}

impl<W: World> Clocks<W> {
    /// The words of this world, with a seat for each node, in the order of their numbers, and the air's seat. No cycle
    /// is passed yet, no send is posted, and no node has halted. After `NoMemory` nothing is left of it.
    pub fn new(alloc: Global, world: &W) -> Result<(Clocks<W>, Vec<NodeSeat>, AirSeat), NoMemory>
        ensures world { IfOk result (λ r. r.0.world ≡ W.facts world.now) }
        ensures nodes { IfOk result (λ r. AreFirstNodes r.0.table (W.facts world.now) r.1.items) }
        ensures air { IfOk result (λ r. r.2 ≡ first_air r.0.table (W.facts world.now)) }
    {
        let nodes = world.topo().nodes();
        let sent = vec![in alloc; 0u64; usize::from(nodes)]?;
        let mut seats = Vec::with_capacity(alloc, usize::from(nodes))?;
        let (table, mut first) = lay(alloc, world, nodes)?;
        seat_nodes(&table, &mut first, &mut seats, nodes);
        let air = AirSeat::of(first, sent);
        Ok((Clocks::of(table, nodes), seats, air))
    }
}
