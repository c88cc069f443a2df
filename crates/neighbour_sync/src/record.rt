// The record.
ghost use Rattle.std.specs.Prelude.{◌≡◌, nat_le};
ghost use Rattle.std.specs.List.{filter};
ghost use Rattle.world_core.specs.Kept.{epoch, kept_room_of};

use crate::loading::{first_behind, first_below};
use crate::{AirSeat, Behind, Clocks, Posted};
use air_base::{Ask, Heard, Sampled, Send};
use std::alloc::Global;
use std::marker::Model;
use world_core::{EPOCH, NoMemory, SendLog, Topo, World};

/// The record of the sends and samples of a world, with the air's seat. Whenever no call is at work on it, each
/// recorded sample is what the one order of all cycles gives, and no send that is still to be posted can alter it. Its
/// room is that of the sends of an epoch: it is cut at the end of each.
pub struct Air {
    // What each sample touches stands first, together: the topology has 12 KB.
    seat: AirSeat,
    samples: Vec<(Ask, Heard)>,
    floor: u64,
    log: SendLog,
    topo: Topo,
}

// By hand, so that an exit that lets go of one, here and in the crates above, has one call to prove.
impl Drop for Air {
    fn drop(self) {
        let Air {
            seat: _,
            samples: _,
            floor: _,
            log: _,
            topo: _,
        } = self;
    }
}

impl Model for Air {
    ghost use Rattle.neighbour_sync.specs.Record.{AirRecord};
    ghost use Rattle.neighbour_sync.specs.Held.{record_of, IsHeld};

    ghost Value = { AirRecord };

    ghost view = { λ a. record_of a.seat a.floor a.log.sends a.samples.items };

    ghost invariant = { λ a. IsHeld a.seat a.topo a.log a.floor a.samples.items };
}

// Drops the samples below this cycle.
fn drop_below(samples: &mut Vec<(Ask, Heard)>, floor: u64)
    ensures { samples.new.items ≡ filter (λ x. nat_le floor x.0.cycle) samples.old.items }
{
    samples.retain(|x| x.0.cycle >= floor);
}

// Room for the sends of an epoch.
fn room_for(topo: &Topo) -> usize
    ensures { result ≡ kept_room_of topo.now epoch }
{
    let byte_time = topo.byte_time();
    let each = (topo.reach() + byte_time + EPOCH) / byte_time + 1;
    usize::from(topo.nodes()) * each as usize
}

impl Air {
    ghost use Rattle.std.specs.Prelude.{◌≡◌, ◌+◌, ◌≤◌, ◌<◌, ◌∷◌, ◌++◌, [], ℕ, List, replicate, IfOk, IfErr};
    ghost use Rattle.std.specs.List.{Contains};
    ghost use Rattle.world_core.specs.Sends.{IsSendNumber};
    ghost use Rattle.world_core.specs.Kept.{epoch, IsPostedTo};
    ghost use Rattle.world_core.specs.Consistent.{IsConsistent};
    ghost use Rattle.neighbour_sync.specs.Loads.{AreReached, pair_of};
    ghost use Rattle.neighbour_sync.specs.Shows.{shown};
    ghost use Rattle.neighbour_sync.specs.Record.{first_record, with_loads, cut_at, IsSound, IsPost, IsSample};

    /// The empty record, which takes its room for sends here.
    pub fn new<W: World>(alloc: Global, world: &W, seat: AirSeat) -> Result<Air, NoMemory>
        requires world { seat.world ≡ W.facts world.now }
        requires sent { seat.sent ≡ replicate (W.facts world.now).topo.nodes 0 }
        ensures { IfOk result (λ a. a ≡ first_record seat.table seat.world seat.loads) }
    {
        let topo = world.topo().copy()?;
        let log = SendLog::new(alloc, room_for(&topo))?;
        Ok(Air {
            seat,
            samples: Vec::new(alloc),
            floor: 0,
            log,
            topo,
        })
    }

    /// Records a send, which is number `number` of its node, counted from 0, and lies below the floor and an epoch.
    /// `Added` exactly where it is the next one; `There` exactly where it was posted before; `Early` exactly where
    /// others of its node come before it. `There` and `Early` change nothing. It takes no memory.
    pub fn post<W: World>(&mut self, clocks: &Clocks<W>, send: Send, number: u64) -> Posted
        requires table { self.old.table ≡ clocks.now.table }
        requires number { IsSendNumber self.old.world number send }
        requires early { send.cycle < self.old.floor + epoch }
        ensures step { IsPost self.old send number result self.new }
        ensures same { (self.new.table ≡ self.old.table) × (self.new.world ≡ self.old.world) × (self.new.floor ≡ self.old.floor) }
    {
        let count = self.seat.sent(send.node);
        if number < count {
            return Posted::There;
        }
        if count < number {
            return Posted::Early { count };
        }
        self.log.push(send);
        clocks.store_sent(&mut self.seat, send.node);
        Posted::Added
    }

    /// One of the world's samples, not below the floor. What is heard is what all sends of the world give, and is
    /// recorded. `NotYet` only where the clock that it names was loaded in this call, is of a node that may be heard,
    /// and is not past the last cycle whose sends may be heard. `NotYet` and `NoMemory` change nothing but what the
    /// seat has loaded.
    pub fn sample<W: World>(&mut self, clocks: &Clocks<W>, node: u8, cycle: u64) -> Sampled
        requires table { self.old.table ≡ clocks.now.table }
        requires asked { Contains self.old.world.asks record { node = node; cycle = cycle } }
        requires floor { self.old.floor ≤ cycle }
        ensures step { IsSample self.old node cycle result self.new }
        ensures same { (self.new.table ≡ self.old.table) × (self.new.world ≡ self.old.world) × (self.new.floor ≡ self.old.floor) }
    {
        if let Some(behind) = first_behind(clocks, &mut self.seat, &self.topo, node, cycle) {
            return Sampled::NotYet {
                node: behind.node,
                clock: behind.clock,
            };
        }
        if self.samples.reserve(1).is_err() {
            return Sampled::NoMemory;
        }
        let heard = self.log.heard(&self.topo, node, cycle);
        self.samples.push_reserved((Ask { node, cycle }, heard));
        Sampled::Heard(heard)
    }

    /// Raises the floor to this cycle, where the clock of each node was loaded and was at least that. The sends that
    /// are over there, which nobody can hear any more, are gone, and the samples below it. `Behind` only where the
    /// clock that it names was loaded in this call and is below the cycle; nothing then changes but what the seat has
    /// loaded. It takes no memory.
    pub fn cut<W: World>(&mut self, clocks: &Clocks<W>, floor: u64) -> Result<(), Behind>
        requires table { self.old.table ≡ clocks.now.table }
        requires rises { self.old.floor ≤ floor }
        requires within { floor ≤ self.old.world.topo.limit }
        ensures same { (self.new.table ≡ self.old.table) × (self.new.world ≡ self.old.world) }
        ensures posted { IfOk result (λ _. IsPostedTo self.old.world floor self.old.sent) }
        ensures cut { IfOk result (λ _. (more : List (ℕ × ℕ)) × AreReached self.old.world.topo.nodes floor more × (self.new ≡ cut_at (with_loads self.old more) floor)) }
        ensures behind { IfErr result (λ b. b.clock < floor) }
        ensures load { IfErr result (λ b. (more : List (ℕ × ℕ)) × (self.new ≡ with_loads self.old (more ++ pair_of b ∷ []))) }
    {
        if let Some(behind) = first_below(clocks, &mut self.seat, &self.topo, floor) {
            return Err(behind);
        }
        self.log.cut(&self.topo, floor);
        drop_below(&mut self.samples, floor);
        self.floor = floor;
        Ok(())
    }

    /// The cycle up to which the record is cut.
    pub fn floor(&self) -> u64
        ensures { result ≡ self.now.floor }
    {
        self.floor
    }

    /// The recorded sends, in the order in which they were posted.
    pub fn sends(&self) -> &[Send]
        ensures value { result.now ≡ self.now.sends }
        ensures sound { IsSound self.now }
    {
        self.log.sends()
    }

    /// The recorded samples, in the order in which they were taken: each is the true one, and all that it could hear is
    /// posted. With the clocks of all nodes at the floor, as they are between two sessions, the record is a consistent
    /// state.
    pub fn samples(&self) -> &[(Ask, Heard)]
        ensures value { result.now ≡ self.now.samples }
        ensures sound { IsSound self.now }
        ensures consistent { IsConsistent (shown self.now (replicate self.now.world.topo.nodes self.now.floor)) }
    {
        &self.samples
    }
}
