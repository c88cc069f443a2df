// A run in epochs, and the whole run.
ghost use Rattle.std.specs.Prelude.{◌≡◌, ◌<◌, ◌≤◌, ◌+◌, ◌++◌, ◌==◌, ℕ, length, min, slice_index_or, true, false, IfOk, OnOk};
ghost use Rattle.std.specs.List.{All};
ghost use Rattle.air_base.specs.NodeRun.{Timed};
ghost use Rattle.world_core.specs.Kept.{epoch};
ghost use Rattle.world_core.specs.Order.{node_at, run_rows};
ghost use Rattle.node_core.specs.State.{NodeState};
ghost use Rattle.node_core.specs.declared.row.Row.{Row};
ghost use Rattle.fleet_flight.specs.Rows.{rows_upto};
ghost use Rattle.fleet_flight.specs.Shadows.{IsSpot, IsWatching, groups_of};
ghost use Rattle.fleet_flight.specs.Watched.{groups_in};
ghost use Rattle.node_runner.specs.Scenario.{fleet_of, IsScenario};
ghost use Rattle.node_runner.specs.Run.{kept_at};
ghost use Rattle.fleet_plain.specs.Run.{at_reset};

use crate::begun::{AtReset, nodes_at_reset};
use air_base::Send;
use avr_base::NoMemory;
use fleet_flight::{WatchedRun, kept_sends, pass_to, record_of, rows_to};
use node_core::{Node, Row};
use node_places::Place;
use node_runner::Scenario;
use std::alloc::Global;
use std::marker::Model;
use std::snapshot::Snapshot;
use world_core::{EPOCH, SendLog};

/// A run of all nodes of a scenario from reset on one thread, epoch by epoch. Its record has the sends that can still be
/// heard and grows with them alone; the rows of an epoch are given as it ends.
pub struct PlainRun {
    alloc: Global,
    scenario: Snapshot<Scenario>,
    limit: u64,
    floor: u64,
    failed: bool,
    nodes: Vec<Node>,
    log: SendLog,
}

// By hand, so that an exit that lets go of a run has one call to prove.
impl Drop for PlainRun {
    fn drop(self) {
        let PlainRun {
            alloc: _,
            scenario: _,
            limit: _,
            floor: _,
            failed: _,
            nodes: _,
            log: _,
        } = self;
    }
}

impl Model for PlainRun {
    ghost use Rattle.node_runner.specs.Run.{RunAt};
    ghost use Rattle.fleet_plain.specs.Run.{IsRun};

    ghost Value = { RunAt };

    ghost view = { λ r. record { scenario = r.scenario.value; floor = r.floor; failed = r.failed } };

    ghost invariant = { λ r. IsRun record { scenario = r.scenario.value; floor = r.floor; failed = r.failed } r.limit r.nodes.items r.log.sends };
}

impl PlainRun {
    /// The run before its first epoch: all nodes at reset.
    pub fn new(alloc: Global, scenario: &Scenario) -> Result<PlainRun, NoMemory>
        ensures run { IfOk result (λ r. r ≡ record { scenario = scenario.now; floor = 0; failed = false }) }
        ensures sound { IsScenario scenario.now }
    {
        let limit = scenario.lawful_topo().limit();
        let nodes = nodes_at_reset(alloc, scenario)?;
        let log = record_of(alloc, &[], 0)?;
        Ok(PlainRun {
            alloc,
            scenario: Snapshot::of(scenario),
            limit,
            floor: 0,
            failed: false,
            nodes,
            log,
        })
    }

    /// Whether the limit is reached, so that no epoch is left.
    pub fn done(&self) -> bool
        ensures value { result ≡ (self.now.floor == self.now.scenario.topo.limit) }
        ensures within { self.now.floor ≤ self.now.scenario.topo.limit }
        ensures sound { IsScenario self.now.scenario }
    {
        self.floor == self.limit
    }

    /// The cycle that all nodes have reached, or stopped before: 0 at first, and the end of the last epoch after it.
    pub fn floor(&self) -> u64
        ensures { result ≡ self.now.floor }
    {
        self.floor
    }

    /// Its nodes, in order of number: each as it is at the cycle of `floor`. Not after `NoMemory`.
    pub fn nodes(&self) -> &[Node]
        requires { self.now.failed ≡ false }
        ensures count { length result.now ≡ self.now.scenario.topo.nodes }
        ensures states { (k : ℕ) (d : Timed NodeState Row) → k < self.now.scenario.topo.nodes → (slice_index_or result.now k d).state ≡ node_at (fleet_of self.now.scenario) k self.now.floor }
    {
        &self.nodes
    }

    /// The sends that can still be heard in the cycle of `floor` or later, in order of cycle, then node. The scenario is
    /// the one of `new`. Not after `NoMemory`.
    pub fn sends(&self, scenario: &Scenario) -> Result<Vec<Send>, NoMemory>
        requires same { scenario.now ≡ self.now.scenario }
        requires sound { self.now.failed ≡ false }
        ensures { IfOk result (λ sends. sends.items ≡ kept_at scenario.now self.now.floor) }
    {
        let sends = kept_sends(self.alloc, scenario.lawful_topo(), &self.log, self.floor)?;
        Ok(sends)
    }

    /// The rows of the next epoch, cycle by cycle and in a cycle node by node, with the last row of each node after the
    /// last epoch. The scenario is the one of `new`. After `NoMemory` the run can only be dropped.
    pub fn epoch(&mut self, scenario: &Scenario) -> Result<Vec<Row>, NoMemory>
        requires same { scenario.now ≡ self.old.scenario }
        requires more { self.old.floor < self.old.scenario.topo.limit }
        requires sound { self.old.failed ≡ false }
        ensures rows { IfOk result (λ v. rows_upto (fleet_of scenario.now) self.new.floor ≡ rows_upto (fleet_of scenario.now) self.old.floor ++ v.items) }
        ensures after { OnOk result (self.new ≡ record self.old { floor = min (self.old.floor + epoch) self.old.scenario.topo.limit }) }
        ensures scenario { self.new.scenario ≡ self.old.scenario }
    {
        let end = (self.floor + EPOCH).min(self.limit);
        self.up_to(scenario, end)
    }

    /// The rows of the next cycles below `end`, in the order of `epoch`, and with the last row of each node where `end`
    /// is the limit. All nodes come to rest there, however long the epoch is. The scenario is the one of `new`. After
    /// `NoMemory` the run can only be dropped.
    pub fn up_to(&mut self, scenario: &Scenario, end: u64) -> Result<Vec<Row>, NoMemory>
        requires same { scenario.now ≡ self.old.scenario }
        requires more { self.old.floor < end }
        requires within { end ≤ self.old.scenario.topo.limit }
        requires sound { self.old.failed ≡ false }
        ensures rows { IfOk result (λ v. rows_upto (fleet_of scenario.now) end ≡ rows_upto (fleet_of scenario.now) self.old.floor ++ v.items) }
        ensures after { OnOk result (self.new ≡ record self.old { floor = end }) }
        ensures scenario { self.new.scenario ≡ self.old.scenario }
    {
        self.failed = true;
        let from = AtReset { scenario };
        let rows = rows_to(
            self.alloc,
            &from,
            &mut self.nodes,
            &mut self.log,
            self.floor,
            end,
        )?;
        self.floor = end;
        self.failed = false;
        Ok(rows)
    }

    /// Passes over the next cycles below `end`, at most as many as an epoch has, but gives no rows. All nodes come to rest
    /// there. The scenario is the one of `new`. After `NoMemory` the run can only be dropped.
    pub fn pass(&mut self, scenario: &Scenario, end: u64) -> Result<(), NoMemory>
        requires same { scenario.now ≡ self.old.scenario }
        requires more { self.old.floor ≤ end }
        requires within { end ≤ self.old.scenario.topo.limit }
        requires sound { self.old.failed ≡ false }
        ensures after { OnOk result (self.new ≡ record self.old { floor = min (self.old.floor + epoch) end }) }
        ensures scenario { self.new.scenario ≡ self.old.scenario }
    {
        self.failed = true;
        let from = AtReset { scenario };
        let next = (self.floor + EPOCH).min(end);
        pass_to(
            self.alloc,
            &from,
            &mut self.nodes,
            &mut self.log,
            self.floor,
            next,
        )?;
        self.floor = next;
        self.failed = false;
        Ok(())
    }

    /// The run from the cycle reached on, watched at these places. The scenario is the one of `new`. Not after `NoMemory`.
    pub fn watch<'a>(
        self,
        scenario: &'a Scenario,
        places: &[Place],
    ) -> Result<WatchedRun<AtReset<'a>>, NoMemory>
        requires same { scenario.now ≡ self.scenario }
        requires sound { self.failed ≡ false }
        requires spots { All (λ p. IsSpot p.spot) places.now }
        ensures watching { IfOk result (λ w. IsWatching (at_reset w.from.scenario.now) w.floor w.nodes.items w.log.sends w.shadows.items) }
        ensures groups { IfOk result (λ w. groups_of w.shadows.items ≡ groups_in scenario.now.topo.nodes places.now) }
        ensures scenario { IfOk result (λ w. w.from.scenario.now ≡ scenario.now) }
        ensures floor { IfOk result (λ w. w.floor ≡ self.floor) }
    {
        let PlainRun {
            alloc,
            scenario: _,
            limit: _,
            floor,
            failed: _,
            nodes,
            log,
        } = self;
        WatchedRun::new(alloc, AtReset { scenario }, nodes, log, floor, places)
    }
}

/// The rows of a whole run of all nodes in the single global order of cycles: cycle by cycle, in a cycle node by node,
/// then the last row of each node. It waits for nobody. `Err` only for want of memory.
pub fn run_plain(alloc: Global, scenario: &Scenario) -> Result<Vec<Row>, NoMemory>
    ensures { IfOk result (λ rows. rows.items ≡ run_rows (fleet_of scenario.now)) }
{
    let mut run = PlainRun::new(alloc, scenario)?;
    let mut rows = Vec::new(alloc);
    while !run.done() {
        rows.append(&mut run.epoch(scenario)?)?;
    }
    Ok(rows)
}
