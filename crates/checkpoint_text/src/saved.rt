// A run that goes on from a saved state.
ghost use Rattle.std.specs.Prelude.{◌≡◌, ℕ, ◌<◌, ◌≤◌, ◌+◌, ◌++◌, ◌==◌, nat_le, [], min, true, false, length, slice_index_or, IfOk, OnOk};
ghost use Rattle.std.specs.List.{All, list_all};
ghost use Rattle.air_base.specs.Bounds.{LAST_CYCLE};
ghost use Rattle.node_runner.specs.Scenario.{IsScenario};
ghost use Rattle.world_core.specs.Kept.{epoch};
ghost use Rattle.air_base.specs.NodeRun.{Timed};
ghost use Rattle.node_core.specs.declared.row.Row.{Row};
ghost use Rattle.node_core.specs.State.{NodeState};
ghost use Rattle.world_core.specs.Order.{node_at};
ghost use Rattle.fleet_flight.specs.Paused.{HaveBegun};
ghost use Rattle.fleet_flight.specs.Rows.{rows_upto};
ghost use Rattle.fleet_flight.specs.Shadows.{IsSpot, IsWatching, groups_of};
ghost use Rattle.fleet_flight.specs.Watched.{groups_in};
ghost use Rattle.checkpoint_text.specs.Onward.{CanResume, IsFit, onward, origin_of};
ghost use Rattle.checkpoint_text.specs.NodeOf.{node_of};
ghost use Rattle.checkpoint_text.specs.State.{counts_fit, kept_of};

use crate::onward::{InState, Onward};
use air_base::{LAST_CYCLE, Send};
use avr_base::NoMemory;
use fleet_flight::{WatchedRun, kept_sends, pass_to, record_of, rows_to};
use node_core::{Node, Row};
use node_places::Place;
use node_runner::Scenario;
use state_text::{NodeParts, StateParts};
use std::alloc::Global;
use std::marker::Model;
use std::snapshot::Snapshot;
use world_core::{EPOCH, SendLog};

// Node `number` of the scenario, by what is saved of it at the cycle `cycle`.
fn node_of(
    alloc: Global,
    scenario: &Scenario,
    number: u8,
    cycle: u64,
    parts: &NodeParts,
) -> Result<Node, NoMemory>
    requires number { number < scenario.now.topo.nodes }
    requires cycle { cycle < scenario.now.topo.limit }
    requires fits { IsFit cycle parts.now }
    ensures { IfOk result (λ node. node ≡ record { cycle = cycle; asking = false; state = node_of scenario.now number parts.now; rows = [] }) }
{
    // The call's clause says that the scenario is one (`IsScenario`), which what follows rests on.
    let _lawful = scenario.lawful_topo();
    scenario.restored(alloc, number, cycle, &parts.numbers, &parts.io, &parts.sram)
}

// The nodes of the scenario, in order.
fn nodes_of(alloc: Global, scenario: &Scenario, state: &StateParts) -> Result<Vec<Node>, NoMemory>
    requires { CanResume scenario.now state.now }
    ensures { IfOk result (λ nodes. HaveBegun (origin_of scenario.now state.now) (length state.now.nodes) nodes.items) }
{
    // The call's clause says that the scenario is one (`IsScenario`), which what follows rests on.
    let _lawful = scenario.lawful_topo();
    let mut nodes = Vec::new(alloc);
    for k in 0..state.nodes.len() {
        let node = node_of(alloc, scenario, k as u8, state.cycle, &state.nodes[k])?;
        if nodes.push(node).is_err() {
            return Err(NoMemory);
        }
    }
    Ok(nodes)
}

// Whether no node has executed more instructions than a state can say.
fn few_each(nodes: &[Node]) -> bool
    ensures { result ≡ list_all (λ v. nat_le v.state.count LAST_CYCLE) nodes.now }
{
    nodes.iter().all(|node| node.instructions() <= LAST_CYCLE)
}

/// A run of all nodes of a scenario that goes on from a saved state, epoch by epoch, on one thread. Any state will do,
/// be it one that a run comes to or not.
pub struct Saved {
    alloc: Global,
    scenario: Snapshot<Scenario>,
    state: Snapshot<StateParts>,
    limit: u64,
    floor: u64,
    failed: bool,
    nodes: Vec<Node>,
    log: SendLog,
}

// By hand, so that an exit that lets go of a run, here and in the crates above, has one call to prove.
impl Drop for Saved {
    fn drop(self) {
        let Saved {
            alloc: _,
            scenario: _,
            state: _,
            limit: _,
            floor: _,
            failed: _,
            nodes: _,
            log: _,
        } = self;
    }
}

impl Model for Saved {
    ghost use Rattle.checkpoint_text.specs.Onward.{SavedAt};
    ghost use Rattle.checkpoint_text.specs.Paused.{IsSaved};

    ghost Value = { SavedAt };

    ghost view = { λ s. record { scenario = s.scenario.value; state = s.state.value; floor = s.floor; failed = s.failed } };

    ghost invariant = { λ s. IsSaved record { scenario = s.scenario.value; state = s.state.value; floor = s.floor; failed = s.failed } s.limit s.nodes.items s.log.sends };
}

impl Saved {
    /// The run before its first epoch, at the state's cycle.
    pub fn new(alloc: Global, scenario: &Scenario, state: &StateParts) -> Result<Saved, NoMemory>
        requires { CanResume scenario.now state.now }
        ensures { IfOk result (λ saved. saved ≡ record { scenario = scenario.now; state = state.now; floor = state.now.cycle; failed = false }) }
    {
        let limit = scenario.lawful_topo().limit();
        let nodes = nodes_of(alloc, scenario, state)?;
        let log = record_of(alloc, &state.sends, state.sends.len())?;
        Ok(Saved {
            alloc,
            scenario: Snapshot::of(scenario),
            state: Snapshot::of(state),
            limit,
            floor: state.cycle,
            failed: false,
            nodes,
            log,
        })
    }

    /// The cycle that all nodes have reached, or stopped before: that of the state at first, and the end of the last
    /// epoch after it.
    pub fn cycle(&self) -> u64
        ensures { result ≡ self.now.floor }
    {
        self.floor
    }

    /// Whether the limit is reached, so that no epoch is left.
    pub fn done(&self) -> bool
        ensures value { result ≡ (self.now.floor == self.now.scenario.topo.limit) }
        ensures within { self.now.floor ≤ self.now.scenario.topo.limit }
        ensures sound { IsScenario self.now.scenario }
    {
        self.floor == self.limit
    }

    /// Its nodes, in order of number: each as it is at the cycle reached. Not after `NoMemory`.
    pub fn nodes(&self) -> &[Node]
        requires { self.now.failed ≡ false }
        ensures count { length result.now ≡ self.now.scenario.topo.nodes }
        ensures states { (k : ℕ) (d : Timed NodeState Row) → k < self.now.scenario.topo.nodes → (slice_index_or result.now k d).state ≡ node_at (onward self.now.scenario self.now.state) k self.now.floor }
    {
        &self.nodes
    }

    /// Whether no node has executed more instructions before the cycle reached than a state can say. Not after `NoMemory`.
    pub fn counts_fit(&self) -> bool
        requires { self.now.failed ≡ false }
        ensures { result ≡ counts_fit (onward self.now.scenario self.now.state) self.now.floor }
    {
        few_each(self.nodes())
    }

    /// The sends that can still be heard in the cycle reached or later, in order of cycle, then node, those of the state
    /// included. The scenario is the one of the state. Not after `NoMemory`.
    pub fn sends(&self, scenario: &Scenario) -> Result<Vec<Send>, NoMemory>
        requires same { scenario.now ≡ self.now.scenario }
        requires sound { self.now.failed ≡ false }
        ensures { IfOk result (λ sends. sends.items ≡ kept_of (onward scenario.now self.now.state) self.now.floor) }
    {
        let sends = kept_sends(self.alloc, scenario.lawful_topo(), &self.log, self.floor)?;
        Ok(sends)
    }

    /// The rows of the next epoch, cycle by cycle and in a cycle node by node, with the last row of each node after the
    /// last epoch. The scenario is the one of the state. After `NoMemory` the run can only be dropped.
    pub fn epoch(&mut self, scenario: &Scenario) -> Result<Vec<Row>, NoMemory>
        requires same { scenario.now ≡ self.old.scenario }
        requires more { self.old.floor < self.old.scenario.topo.limit }
        requires sound { self.old.failed ≡ false }
        ensures rows { IfOk result (λ v. rows_upto (onward scenario.now self.old.state) self.new.floor ≡ rows_upto (onward scenario.now self.old.state) self.old.floor ++ v.items) }
        ensures after { OnOk result (self.new ≡ record self.old { floor = min (self.old.floor + epoch) self.old.scenario.topo.limit }) }
        ensures scenario { self.new.scenario ≡ self.old.scenario }
        ensures state { self.new.state ≡ self.old.state }
    {
        self.failed = true;
        let from = InState {
            scenario,
            state: &self.state,
        };
        let end = (self.floor + EPOCH).min(self.limit);
        let rows = rows_to(
            self.alloc,
            &from,
            &mut self.nodes,
            &mut self.log,
            self.floor,
            end,
        )?;
        self.floor = end;
        self.failed = false;
        Ok(rows)
    }

    /// Passes over the next cycles below `end`, at most as many as an epoch has, but gives no rows. All nodes come to rest
    /// there. The scenario is the one of the state. After `NoMemory` the run can only be dropped.
    pub fn pass(&mut self, scenario: &Scenario, end: u64) -> Result<(), NoMemory>
        requires same { scenario.now ≡ self.old.scenario }
        requires more { self.old.floor ≤ end }
        requires within { end ≤ self.old.scenario.topo.limit }
        requires sound { self.old.failed ≡ false }
        ensures after { OnOk result (self.new ≡ record self.old { floor = min (self.old.floor + epoch) end }) }
        ensures scenario { self.new.scenario ≡ self.old.scenario }
        ensures state { self.new.state ≡ self.old.state }
    {
        self.failed = true;
        let from = InState {
            scenario,
            state: &self.state,
        };
        let next = (self.floor + EPOCH).min(end);
        pass_to(
            self.alloc,
            &from,
            &mut self.nodes,
            &mut self.log,
            self.floor,
            next,
        )?;
        self.floor = next;
        self.failed = false;
        Ok(())
    }

    /// The run from the cycle reached on, watched at these places. The scenario is the one of the state. Not after
    /// `NoMemory`.
    pub fn watch<'a>(
        self,
        scenario: &'a Scenario,
        places: &[Place],
    ) -> Result<WatchedRun<Onward<'a>>, NoMemory>
        requires same { scenario.now ≡ self.scenario }
        requires sound { self.failed ≡ false }
        requires spots { All (λ p. IsSpot p.spot) places.now }
        ensures watching { IfOk result (λ w. IsWatching (origin_of w.from.scenario.now w.from.state.value) w.floor w.nodes.items w.log.sends w.shadows.items) }
        ensures groups { IfOk result (λ w. groups_of w.shadows.items ≡ groups_in scenario.now.topo.nodes places.now) }
        ensures scenario { IfOk result (λ w. w.from.scenario.now ≡ scenario.now) }
        ensures state { IfOk result (λ w. w.from.state.value ≡ self.state) }
        ensures floor { IfOk result (λ w. w.floor ≡ self.floor) }
    {
        let Saved {
            alloc,
            scenario: _,
            state,
            limit: _,
            floor,
            failed: _,
            nodes,
            log,
        } = self;
        WatchedRun::new(alloc, Onward { scenario, state }, nodes, log, floor, places)
    }
}
