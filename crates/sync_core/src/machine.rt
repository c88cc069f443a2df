// The state machine.
use crate::behind::first_behind;
use air_base::{Ask, Heard, Sampled, Send};
use std::alloc::Global;
use std::marker::Model;
use world_core::{NoMemory, SendLog, World};

/// The clocks of all nodes, the numbers of their posted sends, and the record of sends and samples, in one world.
/// They are consistent at every moment: each recorded sample is what all sends of the world give, and no send that is
/// still to be posted can change it.
#[derive(Drop)]
pub struct Core<W: World> {
    world: W,
    clocks: Vec<u64>,
    sent: Vec<u64>,
    log: SendLog,
    samples: Vec<(Ask, Heard)>,
}

impl<W: World> Model for Core<W> {
    ghost use Rattle.std.specs.Prelude.{◌≤◌};
    ghost use Rattle.world_core.specs.Consistent.{AirState, IsConsistent};
    ghost use Rattle.world_core.specs.Settled.{room_of};

    ghost Value = { AirState };

    ghost view = { λ c. record { world = W.facts c.world; clocks = c.clocks.items; sent = c.sent.items; floor = 0; sends = c.log.sends; samples = c.samples.items } };

    ghost invariant = { λ c. IsConsistent record { world = W.facts c.world; clocks = c.clocks.items; sent = c.sent.items; floor = 0; sends = c.log.sends; samples = c.samples.items } × (room_of (W.facts c.world).topo ≤ c.log.room) };
}

impl<W: World> Core<W> {
    ghost use Rattle.std.specs.Prelude.{◌≡◌, ◌<◌, IfOk};
    ghost use Rattle.std.specs.List.{All, Contains};
    ghost use Rattle.world_core.specs.Topology.{IsShort};
    ghost use Rattle.world_core.specs.Sends.{IsSendNumber};
    ghost use Rattle.world_core.specs.Posted.{sent_of};
    ghost use Rattle.world_core.specs.Settled.{truth};
    ghost use Rattle.world_core.specs.Consistent.{IsConsistent, clock_of};
    ghost use Rattle.world_core.specs.Steps.{opening, MayRaise, after_raise, after_post};
    ghost use Rattle.sync_core.specs.Sampling.{IsSampled};
    ghost use Rattle.sync_core.specs.Run.{IsUnchanged};

    /// The core before the first step: all clocks and counts are 0, and nothing is recorded.
    /// The limit is to be at most 10,000,000 cycles: room for all sends that the world can have is taken here.
    pub fn new(alloc: Global, world: W) -> Result<Core<W>, NoMemory>
    where
        W: Drop,
        requires { IsShort (W.facts world).topo }
        ensures opening { IfOk result (λ c. c ≡ opening (W.facts world)) }
        ensures consistent { IfOk result IsConsistent }
    {
        let topo = world.topo();
        let nodes = usize::from(topo.nodes());
        let room = nodes * (topo.limit() as usize / topo.byte_time() as usize + 1);
        Ok(Core {
            clocks: vec![in alloc; 0; nodes]?,
            sent: vec![in alloc; 0; nodes]?,
            log: SendLog::new(alloc, room)?,
            samples: Vec::new(alloc),
            world,
        })
    }

    /// The world whose sends and samples these are.
    pub(crate) fn world(&self) -> &W
        ensures { W.facts result.now ≡ self.now.world }
    {
        &self.world
    }

    /// Raises the clock of a node to this cycle. The clock may not fall or pass the limit, and all sends of the node
    /// below it are to be posted.
    pub fn raise(&mut self, node: u8, clock: u64)
        requires { MayRaise self.old node clock }
        ensures step { self.new ≡ after_raise self.old node clock }
        ensures consistent { IsConsistent self.new }
    {
        self.clocks[usize::from(node)] = clock;
    }

    /// Posts the next send of its node. It takes no memory.
    pub fn post(&mut self, send: Send)
        requires { IsSendNumber self.old.world (sent_of self.old.sent send.node) send }
        ensures step { self.new ≡ after_post self.old send.node }
        ensures consistent { IsConsistent self.new }
    {
        self.log.push(send);
        self.sent[usize::from(send.node)] += 1;
    }

    /// One of the world's samples: node `node` samples the air in this cycle. What it hears is recorded, and is what
    /// all sends of the world give. `NotYet` exactly where a node that could be heard in this cycle has a clock that is
    /// not past the last cycle whose sends could be heard: the lowest such node, with its clock. `NotYet` and
    /// `NoMemory` change nothing.
    pub fn sample(&mut self, node: u8, cycle: u64) -> Sampled
        requires { Contains self.old.world.asks record { node = node; cycle = cycle } }
        ensures step { IsSampled self.old node cycle result self.new }
        ensures consistent { IsConsistent self.new }
    {
        let topo = self.world.topo();
        if let Some(behind) = first_behind(topo, &self.clocks, node, cycle) {
            return Sampled::NotYet {
                node: behind,
                clock: self.clocks[usize::from(behind)],
            };
        }
        let heard = self.log.heard(topo, node, cycle);
        match self.samples.push((Ask { node, cycle }, heard)) {
            Ok(()) => Sampled::Heard(heard),
            Err(_) => Sampled::NoMemory,
        }
    }

    /// The clock of a node, in cycles: 0 to the limit.
    pub fn clock(&self, node: u8) -> u64
        requires { node < self.now.world.topo.nodes }
        ensures value { result ≡ clock_of self.now.clocks node }
        ensures consistent { IsConsistent self.now }
    {
        self.clocks[usize::from(node)]
    }

    /// How many sends of a node are posted.
    pub fn sent(&self, node: u8) -> u64
        requires { node < self.now.world.topo.nodes }
        ensures value { result ≡ sent_of self.now.sent node }
        ensures consistent { IsConsistent self.now }
    {
        self.sent[usize::from(node)]
    }

    /// The posted sends, in the order in which they were posted.
    pub fn sends(&self) -> &[Send]
        ensures value { result.now ≡ self.now.sends }
        ensures consistent { IsConsistent self.now }
    {
        self.log.sends()
    }

    /// The recorded samples, in the order in which they were taken. Each is what all sends of the world give, and
    /// whatever steps come later, the record then gives it the same value.
    pub fn samples(&self) -> &[(Ask, Heard)]
        ensures value { result.now ≡ self.now.samples }
        ensures right { All (λ x. x.1 ≡ truth self.now.world x.0.node x.0.cycle) result.now }
        ensures unchanged { All (IsUnchanged self.now) result.now }
        ensures consistent { IsConsistent self.now }
    {
        &self.samples
    }
}
