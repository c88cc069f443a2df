// The seats by which threads step on the words.
ghost use Rattle.std.specs.Prelude.{◌≡◌, ◌<◌, [], replicate};
ghost use Rattle.world_core.specs.Lawful.{IsLawful};
ghost use Rattle.neighbour_sync.specs.Layout.{word_count};
ghost use Rattle.neighbour_sync.specs.Rule.{air_view, node_view};
ghost use Rattle.neighbour_sync.specs.Seats.{first_air, first_node};

use crate::rule::View;
use atomic_table::Seat;
use std::marker::Model;

/// The air's seat: whoever has it counts the posted sends, and what it loads of a clock may be relied on. There is one.
pub struct AirSeat {
    pub(crate) seat: Seat<(), View>,
    pub(crate) sent: Vec<u64>,
}

// By hand, so that an exit that lets go of one, here and in the crates above, has one call to prove.
impl Drop for AirSeat {
    fn drop(self) {
        let AirSeat { seat: _, sent: _ } = self;
    }
}

impl Model for AirSeat {
    ghost use Rattle.neighbour_sync.specs.Seats.{AirFacts};
    ghost use Rattle.neighbour_sync.specs.Inside.{IsAirSeat};

    ghost Value = { AirFacts };

    ghost view = { λ a. record { table = a.seat.table_id; world = a.seat.me.0.world; sent = a.sent.items; loads = a.seat.me.0.loads } };

    ghost invariant = { λ a. IsAirSeat a.seat.table_id.words a.seat.me a.sent.items };
}

/// The seat of one node: whoever has it raises the node's clock.
pub struct NodeSeat {
    pub(crate) seat: Seat<(), View>,
    number: u8,
    pub(crate) clock: u64,
    pub(crate) told: u64,
}

// By hand, so that an exit that lets go of one, here and in the crates above, has one call to prove.
impl Drop for NodeSeat {
    fn drop(self) {
        let NodeSeat {
            seat: _,
            number: _,
            clock: _,
            told: _,
        } = self;
    }
}

impl Model for NodeSeat {
    ghost use Rattle.neighbour_sync.specs.Seats.{NodeFacts};
    ghost use Rattle.neighbour_sync.specs.Inside.{IsNodeSeat};

    ghost Value = { NodeFacts };

    ghost view = { λ n. record { table = n.seat.table_id; world = n.seat.me.0.world; number = n.number; clock = n.clock; told = n.told; loads = n.seat.me.0.loads; halts = n.seat.me.0.halts; stopped = n.seat.me.0.stopped } };

    ghost invariant = { λ n. IsNodeSeat n.seat.table_id.words n.seat.me n.number n.clock n.told };
}

impl AirSeat {
    ghost use Rattle.std.specs.Prelude.{◌≡◌, ◌<◌, length};
    ghost use Rattle.world_core.specs.Posted.{sent_of};

    // The table's first seat, when the seats of all nodes are made. `sent` has a 0 for each node.
    pub(crate) fn of(seat: Seat<(), View>, sent: Vec<u64>) -> AirSeat
        requires words { seat.table_id.words ≡ word_count seat.me.0.world.topo.nodes }
        requires lawful { IsLawful seat.me.0.world }
        requires view { seat.me ≡ (air_view seat.me.0.world seat.me.0.made, []) }
        requires sent { sent.items ≡ replicate seat.me.0.world.topo.nodes 0 }
        ensures { result ≡ first_air seat.table_id seat.me.0.world }
    {
        AirSeat { seat, sent }
    }

    /// How many sends of a node are posted.
    pub fn sent(&self, node: u8) -> u64
        requires { node < self.now.world.topo.nodes }
        ensures { result ≡ sent_of self.now.sent node }
    {
        self.sent[usize::from(node)]
    }
}

impl NodeSeat {
    ghost use Rattle.std.specs.Prelude.{◌≡◌};

    // A seat that the air's seat has just made.
    pub(crate) fn of(seat: Seat<(), View>, number: u8) -> NodeSeat
        requires words { seat.table_id.words ≡ word_count seat.me.0.world.topo.nodes }
        requires below { number < seat.me.0.world.topo.nodes }
        requires view { seat.me ≡ (node_view seat.me.0.world number, []) }
        ensures { result ≡ first_node seat.table_id seat.me.0.world number }
    {
        NodeSeat {
            seat,
            number,
            clock: 0,
            told: 0,
        }
    }

    /// The number of its node.
    pub fn number(&self) -> u8
        ensures { result ≡ self.now.number }
    {
        self.number
    }

    /// Its node's clock word, which this seat alone raises: a cycle, 0 to the limit.
    pub fn clock(&self) -> u64
        ensures { result ≡ self.now.clock }
    {
        self.clock
    }

    /// How many of its node's sends it last saw to be posted. There may be more by now, and never less.
    pub fn told(&self) -> u64
        ensures { result ≡ self.now.told }
    {
        self.told
    }
}
