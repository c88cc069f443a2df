// A world with its clock words, the seats of all its nodes, and its record.
ghost use Rattle.std.specs.Prelude.{◌≡◌};
ghost use Rattle.std.specs.List.{All};

use crate::answer::{of_cut, of_posted};
use air_base::Ask;
use air_cases::{Answer, Fault, count_below, is_asked, send_number};
use list_world::ListWorld;
use neighbour_sync::{Air, Clocks, NodeSeat};
use std::alloc::Global;
use world_core::{EPOCH, World};

/// All that steps on the record of a world.
#[derive(Drop)]
pub struct Stand {
    world: ListWorld,
    clocks: Clocks<ListWorld>,
    seats: Vec<NodeSeat>,
    air: Air,
    ghost worlds: { (clocks.world ≡ world) × (air.world ≡ world) },
    ghost table: { air.table ≡ clocks.table },
    ghost seated: { All (λ s. (s.table ≡ clocks.table) × (s.world ≡ world)) seats.items },
}

// Raises the clock of a seat's node, or answers false where that is forbidden.
fn raise_seat(
    clocks: &Clocks<ListWorld>,
    world: &ListWorld,
    seat: &mut NodeSeat,
    clock: u64,
) -> bool
    requires table { seat.old.table ≡ clocks.now.table }
    requires world { seat.old.world ≡ world.now }
    ensures same { (seat.new.table ≡ seat.old.table) × (seat.new.world ≡ seat.old.world) }
{
    let told = clocks.see_sent(seat);
    let is_allowed = clock >= seat.clock()
        && clock <= world.topo().limit()
        && count_below(world.sends(), seat.number(), clock) <= told;
    if is_allowed {
        clocks.raise(seat, clock);
    }
    is_allowed
}

impl Stand {
    /// The words and the record of this world, in which nothing has happened yet.
    pub fn new(alloc: Global, world: ListWorld) -> Result<Stand, Fault> {
        let (clocks, seats, seat) = Clocks::new(alloc, &world)?;
        let air = Air::new(alloc, &world, seat)?;
        Ok(Stand {
            world,
            clocks,
            seats,
            air,
        })
    }

    /// Raises the clock of a node to a cycle. It is `Forbidden` where there is no such node, or a contract forbids it.
    pub fn raise(&mut self, node: u8, clock: u64) -> Result<(), Fault> {
        let place = usize::from(node);
        if place >= self.seats.len() {
            return Err(Fault::Forbidden);
        }
        if raise_seat(&self.clocks, &self.world, &mut self.seats[place], clock) {
            Ok(())
        } else {
            Err(Fault::Forbidden)
        }
    }

    /// Posts a node's send of this number, from 0, and gives the record's answer. It is `Forbidden` where there is
    /// none, or it lies an epoch above the floor.
    pub fn post(&mut self, alloc: Global, node: u8, number: u64) -> Result<Answer, Fault> {
        let Some(send) = send_number(alloc, &self.world, node, number)? else {
            return Err(Fault::Forbidden);
        };
        if send.cycle.saturating_sub(self.air.floor()) >= EPOCH {
            return Err(Fault::Forbidden);
        }
        Ok(of_posted(self.air.post(&self.clocks, send, number)))
    }

    /// Samples the air for a node in a cycle. It is `Forbidden` where the world has no such sample, or the cycle is
    /// below the floor.
    pub fn sample(&mut self, node: u8, cycle: u64) -> Result<Answer, Fault> {
        if cycle < self.air.floor() || !is_asked(self.world.asks(), &Ask { node, cycle }) {
            return Err(Fault::Forbidden);
        }
        Answer::of_sampled(self.air.sample(&self.clocks, node, cycle))
    }

    /// Cuts the record at a cycle, if no node is behind it, and gives the answer. It is `Forbidden` where the cycle is
    /// no floor.
    pub fn cut(&mut self, floor: u64) -> Result<Answer, Fault> {
        if floor < self.air.floor() || floor > self.world.topo().limit() {
            return Err(Fault::Forbidden);
        }
        Ok(of_cut(self.air.cut(&self.clocks, floor)))
    }

    /// The record of the air.
    pub fn air(&self) -> &Air {
        &self.air
    }
}
