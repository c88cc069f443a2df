// What a node does with the shared air.
use crate::NodeSeat;
use crate::answers::{Behind, SampleOutcome};
use crate::session::Session;
use crate::shared::Shared;
use crate::steps::{post_once, post_until_seen, try_once};
use air_base::Send;
use std::marker::Model;
use std::sync::{Arc, Wait};
use world_core::{Topo, World};

// The longest sleep of one call, in milliseconds: how late a halt is seen.
const LONGEST_SLEEP: u64 = 10;

/// A node's part of the air: its seat at the clock words, and the topology, by which it sees for whom it has to wait.
/// All nodes hold one topology together.
pub struct NodeAir {
    seat: NodeSeat,
    topo: Arc<Topo>,
}

// By hand, so that an exit that lets go of one, here and in the crates above, has one call to prove.
impl Drop for NodeAir {
    fn drop(self) {
        let NodeAir { seat: _, topo: _ } = self;
    }
}

impl Model for NodeAir {
    ghost use Rattle.std.specs.Prelude.{◌≡◌};
    ghost use Rattle.std.specs.Arc.{arc_value};
    ghost use Rattle.neighbour_sync.specs.Seats.{NodeFacts};

    ghost Value = { NodeFacts };

    ghost view = { λ n. n.seat };

    ghost invariant = { λ n. arc_value n.topo ≡ n.seat.world.topo };
}

impl NodeAir {
    ghost use Rattle.std.specs.Prelude.{◌≡◌, ◌+◌, ◌≤◌, ◌<◌, true};
    ghost use Rattle.std.specs.Arc.{arc_value};
    ghost use Rattle.std.specs.List.{Contains};
    ghost use Rattle.world_core.specs.Sends.{sends_below, IsSendNumber};
    ghost use Rattle.neighbour_sync.specs.Seats.{node_raised, node_told, node_stopped};
    ghost use Rattle.world_core.specs.Kept.{epoch};
    ghost use Rattle.neighbour_sync.specs.Tries.{IsTried};
    ghost use Rattle.neighbour_sync.specs.Waits.{IsPassed};

    pub(crate) fn of(seat: NodeSeat, topo: Arc<Topo>) -> NodeAir
        requires { arc_value topo ≡ seat.world.topo }
        ensures { result ≡ seat }
    {
        NodeAir { seat, topo }
    }

    /// The number of the node.
    pub fn number(&self) -> u8
        ensures { result ≡ self.now.number }
    {
        self.seat.number()
    }

    /// The node's clock: a cycle, 0 to the limit.
    pub fn clock(&self) -> u64
        ensures { result ≡ self.now.clock }
    {
        self.seat.clock()
    }

    /// How many of the node's sends it last saw to be posted. There may be more by now, and never less.
    pub fn told(&self) -> u64
        ensures { result ≡ self.now.told }
    {
        self.seat.told()
    }

    /// Raises the node's clock to this cycle, so that others need not wait for its sends below it, and wakes those who
    /// sleep until it is there (`sample_when_passed`). It takes no lock. The clock may not fall or pass the limit, and
    /// the node has to have seen that all its sends below it are posted.
    pub fn raise<W: World, N: Session>(&mut self, shared: &Shared<W, N>, clock: u64)
        requires session { (self.old.table ≡ N.table) × (self.old.world ≡ N.world) }
        requires rises { self.old.clock ≤ clock }
        requires within { clock ≤ N.world.topo.limit }
        requires told { sends_below N.world.sends self.old.number clock ≤ self.old.told }
        ensures { self.new ≡ node_raised self.old clock }
    {
        shared.clocks().raise(&mut self.seat, clock);
    }

    /// Posts a send of the node, which is number `number` of its sends, counted from 0, and lies below the session's
    /// floor and an epoch, by one try under the lock, and looks once whether it is counted: if so, the node's next raise
    /// may pass it. It takes no memory. Where all its sends before that one are posted it is counted, which no clause
    /// says.
    pub fn try_post<W: World, N: Session, R: Wait>(
        &mut self,
        rt: &R,
        shared: &Shared<W, N>,
        send: Send,
        number: u64,
    ) -> bool
        requires session { (self.old.table ≡ N.table) × (self.old.world ≡ N.world) }
        requires node { send.node ≡ self.old.number }
        requires number { IsSendNumber N.world number send }
        requires early { send.cycle < N.floor + epoch }
        ensures told { result ≡ true → number < self.new.told }
        ensures rises { self.old.told ≤ self.new.told }
        ensures same { self.new ≡ node_told self.old self.new.told }
    {
        post_once(rt, shared, &mut self.seat, send, number)
    }

    /// The same, again and again until the send is counted.
    pub fn post<W: World, N: Session, R: Wait>(
        &mut self,
        rt: &R,
        shared: &Shared<W, N>,
        send: Send,
        number: u64,
    )
        requires session { (self.old.table ≡ N.table) × (self.old.world ≡ N.world) }
        requires node { send.node ≡ self.old.number }
        requires number { IsSendNumber N.world number send }
        requires early { send.cycle < N.floor + epoch }
        ensures told { number < self.new.told }
        ensures rises { self.old.told ≤ self.new.told }
        ensures same { self.new ≡ node_told self.old self.new.told }
    {
        post_until_seen(rt, shared, &mut self.seat, send, number);
    }

    /// Tries to take one of the node's samples, not below the session's floor. It looks at the halt first, then at the
    /// clocks of the nodes that it may hear, and takes the lock only where it has seen all of them far enough; but for
    /// the lock it waits for nobody. What is heard is what all sends of the world give, and is recorded. `Halted`
    /// exactly where its look at the halt gave 1. `Err` where that cannot be told yet: the clock that it names was
    /// looked at last, is of a node that may be heard, and is not past the last cycle whose sends may be heard.
    pub fn try_sample<W: World, N: Session, R: Wait>(
        &mut self,
        rt: &R,
        shared: &Shared<W, N>,
        cycle: u64,
    ) -> Result<SampleOutcome, Behind>
        requires session { (self.old.table ≡ N.table) × (self.old.world ≡ N.world) }
        requires asked { Contains N.world.asks record { node = self.old.number; cycle = cycle } }
        requires floor { N.floor ≤ cycle }
        ensures { IsTried N.world self.old cycle result self.new }
    {
        try_once(rt, shared, &mut self.seat, &self.topo, cycle)
    }

    // Sleeps until the clock of that node is past the last cycle whose sends may be heard in this one.
    fn sleep<W: World, N: Session, R: Wait>(
        &mut self,
        rt: &R,
        shared: &Shared<W, N>,
        node: u8,
        cycle: u64,
    )
        requires { self.old.table ≡ N.table }
        ensures { self.new ≡ self.old }
    {
        let latency = self.topo.latency_of(node, self.seat.number());
        let last = cycle.saturating_sub(latency);
        shared
            .clocks()
            .sleep_until_past(rt, &mut self.seat, node, last, LONGEST_SLEEP);
    }

    /// Takes one of the node's samples, not below the session's floor, as soon as the nodes that it may hear are far
    /// enough. While it waits it looks at words, and at the lock not at all, and sleeps between its looks until the one
    /// that it waits for is far enough. `Halted` only where its last look at the halt gave 1, and no earlier one did.
    pub fn sample_when_passed<W: World, N: Session, R: Wait>(
        &mut self,
        rt: &R,
        shared: &Shared<W, N>,
        cycle: u64,
    ) -> SampleOutcome
        requires session { (self.old.table ≡ N.table) × (self.old.world ≡ N.world) }
        requires asked { Contains N.world.asks record { node = self.old.number; cycle = cycle } }
        requires floor { N.floor ≤ cycle }
        ensures { IsPassed N.world self.old cycle result self.new }
    {
        for _ in rt.forever() {
            match self.try_sample(rt, shared, cycle) {
                Ok(outcome) => return outcome,
                Err(behind) => self.sleep(rt, shared, behind.node, cycle),
            }
        }
        unreachable!()
    }

    /// Tells all nodes to halt, for good. It takes no lock.
    pub fn halt<W: World, N: Session>(&mut self, shared: &Shared<W, N>)
        requires session { (self.old.table ≡ N.table) × (self.old.world ≡ N.world) }
        ensures { self.new ≡ node_stopped self.old }
    {
        shared.clocks().halt(&mut self.seat);
    }
}
