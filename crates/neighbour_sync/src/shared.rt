// The lock, and the words beside it.
ghost use Rattle.std.specs.Prelude.{◌≡◌};

use crate::session::Session;
use crate::{Air, Clocks, Posted};
use air_base::{Sampled, Send};
use crossbeam_utils::CachePadded;
use std::marker::{Model, PhantomData};
use std::sync::{Mutex, Wait};
use world_core::World;

// What lies under the lock: the record of the session. Whenever the lock is free it is of the session's table and
// world, and cut at its floor; and it is a record at rest, so that each of its samples is the true one and final.
#[derive(Drop)]
struct Locked<N: Session> {
    air: Air,
    of: PhantomData<N>,
}

impl<N: Session> Model for Locked<N> {
    ghost use Rattle.std.specs.Prelude.{◌≡◌};
    ghost use Rattle.neighbour_sync.specs.Record.{AirRecord};

    ghost Value = { AirRecord };

    ghost view = { λ l. l.air };

    ghost invariant = { λ l. (l.air.table ≡ N.table) × (l.air.world ≡ N.world) × (l.air.floor ≡ N.floor) };
}

impl<N: Session> Locked<N> {
    ghost use Rattle.std.specs.Prelude.{◌≡◌, ◌+◌, ◌≤◌, ◌<◌};
    ghost use Rattle.std.specs.List.{Contains};
    ghost use Rattle.world_core.specs.Sends.{IsSendNumber};
    ghost use Rattle.world_core.specs.Kept.{epoch};
    ghost use Rattle.neighbour_sync.specs.Record.{IsPost, IsSample};
    ghost use Rattle.neighbour_sync.specs.Told.{IsTold};

    fn post<W: World>(&mut self, clocks: &Clocks<W>, send: Send, number: u64) -> Posted
        requires table { clocks.now.table ≡ N.table }
        requires number { IsSendNumber N.world number send }
        requires early { send.cycle < N.floor + epoch }
        ensures { IsPost self.old send number result self.new }
    {
        self.air.post(clocks, send, number)
    }

    fn sample<W: World>(&mut self, clocks: &Clocks<W>, node: u8, cycle: u64) -> Sampled
        requires table { clocks.now.table ≡ N.table }
        requires asked { Contains N.world.asks record { node = node; cycle = cycle } }
        requires floor { N.floor ≤ cycle }
        ensures step { IsSample self.old node cycle result self.new }
        ensures told { IsTold N.world node cycle result }
    {
        self.air.sample(clocks, node, cycle)
    }
}

/// The record of a session under a lock, and the clock words beside it. Threads share it by reference. Whoever takes
/// the lock knows that record, words and world belong together. The lock is padded on both sides: threads that wait for
/// it read its word again and again, and would take a line with the record away from the one that has the lock, and one
/// with `clocks` from all that look at a clock.
#[derive(Drop)]
pub struct Shared<W: World, N: Session> {
    clocks: Clocks<W>,
    lock: CachePadded<Mutex<CachePadded<Locked<N>>>>,
    ghost clocks_are: { (clocks.table ≡ N.table) × (clocks.world ≡ N.world) },
}

impl<W: World, N: Session> Shared<W, N> {
    ghost use Rattle.std.specs.Prelude.{◌≡◌, ◌+◌, ◌≤◌, ◌<◌};
    ghost use Rattle.std.specs.List.{Contains};
    ghost use Rattle.world_core.specs.Sends.{IsSendNumber};
    ghost use Rattle.world_core.specs.Kept.{epoch};
    ghost use Rattle.neighbour_sync.specs.Record.{IsSound};
    ghost use Rattle.neighbour_sync.specs.Told.{IsTold};
    ghost use Rattle.neighbour_sync.specs.Parts.{AreParts};

    /// Puts the record under a lock. It takes no memory.
    pub fn new(clocks: Clocks<W>, air: Air) -> Shared<W, N>
        requires { AreParts N.table N.world N.floor clocks air }
    {
        let locked = Locked {
            air,
            of: PhantomData,
        };
        Shared {
            clocks,
            lock: CachePadded::new(Mutex::new(CachePadded::new(locked))),
        }
    }

    /// The words and the record, when nobody shares them any more. Whatever was done to them, by whichever threads and
    /// in whatever order, they belong to the session, and each recorded sample is the true one, which no later entry
    /// can alter.
    pub fn into_parts(self) -> (Clocks<W>, Air)
        ensures parts { AreParts N.table N.world N.floor result.0 result.1 }
        ensures sound { IsSound result.1 }
    {
        let Shared { clocks, lock } = self;
        let Locked { air, of: _ } = lock.into_inner().into_inner().into_inner();
        // The call's clause says that the record is sound.
        let _sound = air.samples();
        (clocks, air)
    }

    // The words.
    pub(crate) fn clocks(&self) -> &Clocks<W>
        ensures { result.now.table ≡ N.table }
    {
        &self.clocks
    }

    // Posts a send under the lock.
    pub(crate) fn post<R: Wait>(&self, rt: &R, send: Send, number: u64) -> Posted
        requires number { IsSendNumber N.world number send }
        requires early { send.cycle < N.floor + epoch }
    {
        self.lock.lock(rt).post(&self.clocks, send, number)
    }

    // Samples under the lock.
    pub(crate) fn sample<R: Wait>(&self, rt: &R, node: u8, cycle: u64) -> Sampled
        requires asked { Contains N.world.asks record { node = node; cycle = cycle } }
        requires floor { N.floor ≤ cycle }
        ensures { IsTold N.world node cycle result }
    {
        self.lock.lock(rt).sample(&self.clocks, node, cycle)
    }
}
