// A run whose nodes are watched, epoch by epoch.
ghost use Rattle.std.specs.Prelude.{◌≡◌, ◌≤◌, ◌+◌, min, IfOk, OnOk};
ghost use Rattle.std.specs.List.{All};
ghost use Rattle.world_core.specs.Kept.{epoch};
ghost use Rattle.fleet_flight.specs.Origin.{flown};
ghost use Rattle.fleet_flight.specs.Paused.{IsPaused};
ghost use Rattle.fleet_flight.specs.Shadows.{AreSized, IsSpot, IsWatching, groups_of};
ghost use Rattle.fleet_flight.specs.Watched.{groups_in, watched};

use crate::begun::shadows_of;
use crate::watch::watch_to;
use crate::{Begins, Shadow};
use avr_base::NoMemory;
use node_core::Node;
use node_places::{Change, Place};
use std::alloc::Global;
use world_core::{EPOCH, SendLog};

/// A run of all nodes on one thread, of which some are watched from the cycle on in which it was begun. What is seen is
/// given as the cycles are passed, and not kept.
pub struct WatchedRun<B: Begins> {
    pub alloc: Global,
    pub from: B,
    pub nodes: Vec<Node>,
    pub log: SendLog,
    pub shadows: Vec<Shadow>,
    /// The cycle that all nodes and shadows have reached, or stopped before.
    pub floor: u64,
}

// By hand, so that an exit that lets go of one, here and in the crates above, has one call to prove.
impl<B: Begins + Drop> Drop for WatchedRun<B> {
    fn drop(self) {
        let WatchedRun {
            alloc: _,
            from: _,
            nodes: _,
            log: _,
            shadows: _,
            floor: _,
        } = self;
    }
}

impl<B: Begins + Drop> WatchedRun<B> {
    /// A run whose nodes, with this record of sends, have reached the cycle `floor`, and are watched at these places from
    /// there on.
    pub fn new(
        alloc: Global,
        from: B,
        nodes: Vec<Node>,
        log: SendLog,
        floor: u64,
        places: &[Place],
    ) -> Result<WatchedRun<B>, NoMemory>
        requires paused { IsPaused (flown (B.origin from)) floor floor nodes.items log.sends }
        requires sized { AreSized (B.origin from) }
        requires spots { All (λ p. IsSpot p.spot) places.now }
        ensures watching { IfOk result (λ w. IsWatching (B.origin from) floor w.nodes.items w.log.sends w.shadows.items) }
        ensures groups { IfOk result (λ w. groups_of w.shadows.items ≡ groups_in (B.origin from).topo.nodes places.now) }
        ensures from { IfOk result (λ w. w.from ≡ from) }
        ensures floor { IfOk result (λ w. w.floor ≡ floor) }
    {
        // The call's clause says that the topology is one (`IsTopology`), so that nodes are few.
        let _lawful = from.topo();
        let shadows = shadows_of(alloc, &nodes, places)?;
        Ok(WatchedRun {
            alloc,
            from,
            nodes,
            log,
            shadows,
            floor,
        })
    }

    /// Passes over the next cycles below `end`, at most as many as an epoch has: what is seen in them, in order of cycle,
    /// then node, then place. After `NoMemory` it can only be dropped.
    pub fn next(&mut self, end: u64) -> Result<Vec<Change>, NoMemory>
        requires watching { IsWatching (B.origin self.old.from) self.old.floor self.old.nodes.items self.old.log.sends self.old.shadows.items }
        requires more { self.old.floor ≤ end }
        requires end { end ≤ (B.origin self.old.from).topo.limit }
        ensures changes { IfOk result (λ v. v.items ≡ watched (flown (B.origin self.old.from)) (groups_of self.old.shadows.items) self.old.floor self.new.floor) }
        ensures watching { OnOk result (IsWatching (B.origin self.old.from) self.new.floor self.new.nodes.items self.new.log.sends self.new.shadows.items) }
        ensures floor { OnOk result (self.new.floor ≡ min (self.old.floor + epoch) end) }
        ensures groups { OnOk result (groups_of self.new.shadows.items ≡ groups_of self.old.shadows.items) }
        ensures from { OnOk result (self.new.from ≡ self.old.from) }
    {
        let next = self.floor + (end - self.floor).min(EPOCH);
        let changes = watch_to(
            self.alloc,
            &self.from,
            &mut self.nodes,
            &mut self.log,
            &mut self.shadows,
            self.floor,
            next,
        )?;
        self.floor = next;
        Ok(changes)
    }
}
