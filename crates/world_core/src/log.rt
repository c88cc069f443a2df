// The record of sends.
use crate::listen::listen;
use crate::ways::{JumpPointer, chained, keep, no_places, way_from};
use crate::{NoMemory, Topo};
use air_base::{Heard, MOST_NODES, Send};
use std::alloc::Global;
use std::marker::Model;

/// The sends of a network of at most `MOST_NODES` nodes, in the order of their posting; those of each node rise in
/// cycle. Its room is taken at once.
pub struct SendLog {
    sends: Vec<Send>,
    // for each send how to go back from it
    ways: Vec<JumpPointer>,
    // for each node the place of its last send, counted from 1, or 0
    last: [usize; MOST_NODES as usize],
    room: usize,
}

// By hand, so that an exit that lets go of one, here and in the crates above, has one call to prove.
impl Drop for SendLog {
    fn drop(self) {
        let SendLog {
            sends: _,
            ways: _,
            last: _,
            room: _,
        } = self;
    }
}

impl Model for SendLog {
    ghost use Rattle.std.specs.Prelude.{vec_capacity, ◌≤◌};
    ghost use Rattle.world_core.specs.Chain.{IsLog, LogFacts};

    ghost Value = { LogFacts };

    ghost view = { λ l. record { sends = l.sends.items; room = l.room } };

    ghost invariant = { λ l. IsLog l.sends.items l.ways.items l.last × (l.room ≤ vec_capacity l.sends) × (l.room ≤ vec_capacity l.ways) };
}

impl SendLog {
    ghost use Rattle.std.specs.Prelude.{◌≡◌, ◌<◌, ◌++◌, [], ◌∷◌, length, IfOk};
    ghost use Rattle.std.specs.List.{All, filter};
    ghost use Rattle.air_base.specs.declared.bounds.TheConstants.{MOST_NODES};
    ghost use Rattle.world_core.specs.Topology.{IsInside};
    ghost use Rattle.world_core.specs.Heard.{heard};
    ghost use Rattle.world_core.specs.Kept.{is_kept};
    ghost use Rattle.world_core.specs.Sends.{sends_of};
    ghost use Rattle.world_core.specs.Chain.{log_of};

    /// A record of no sends, with room for so many.
    pub fn new(alloc: Global, room: usize) -> Result<SendLog, NoMemory>
        ensures { IfOk result (λ l. l ≡ log_of [] room) }
    {
        Ok(SendLog {
            sends: Vec::with_capacity(alloc, room)?,
            ways: Vec::with_capacity(alloc, room)?,
            last: no_places(),
            room,
        })
    }

    /// Posts a send, which lies above the earlier ones of its node. It takes no memory.
    pub fn push(&mut self, send: Send)
        requires node { send.node < MOST_NODES }
        requires after { All (λ y. y.cycle < send.cycle) (sends_of send.node self.old.sends) }
        requires room { length self.old.sends < self.old.room }
        ensures { self.new ≡ log_of (self.old.sends ++ send ∷ []) self.old.room }
    {
        let node = usize::from(send.node);
        let way = way_from(&self.ways, self.last[node]);
        self.ways.push_reserved(way);
        self.sends.push_reserved(send);
        self.last[node] = self.sends.len();
    }

    /// Drops exactly the sends that are over at the cycle `floor`: those whose cycle, the topology's reach and its byte
    /// time together are at most that, so that no node can hear them from there on. The others keep their order. It
    /// takes no memory.
    pub fn cut(&mut self, topo: &Topo, floor: u64)
        ensures { self.new ≡ log_of (filter (is_kept topo.now floor) self.old.sends) self.old.room }
    {
        keep(&mut self.sends, topo, floor);
        self.last = chained(&self.sends, &mut self.ways);
    }

    /// The sends, in the order in which they were posted.
    pub fn sends(&self) -> &[Send]
        ensures { result.now ≡ self.now.sends }
    {
        &self.sends
    }

    /// How many sends there is room for.
    pub fn room(&self) -> usize
        ensures { result ≡ self.now.room }
    {
        self.room
    }

    /// What node `node` hears in this cycle of all these sends: the filter of the whole list. It looks only at the
    /// nodes that this one hears, and of each only at the few sends that a search for the cycle meets.
    pub fn heard(&self, topo: &Topo, node: u8, cycle: u64) -> Heard
        requires { All (λ x. IsInside topo.now x.node x.cycle) self.now.sends }
        ensures { result ≡ heard topo.now self.now.sends node cycle }
    {
        listen(topo, &self.sends, &self.ways, &self.last, node, cycle)
    }
}
