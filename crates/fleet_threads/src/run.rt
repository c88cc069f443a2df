// A run in epochs, and the whole run.
ghost use Rattle.std.specs.Prelude.{◌≡◌, ◌<◌, ◌≤◌, ◌+◌, ◌++◌, ◌==◌, min, map, false, [], IfOk, OnOk};
ghost use Rattle.std.specs.List.{All};
ghost use Rattle.world_core.specs.Order.{facts_of, run_rows};
ghost use Rattle.node_runner.specs.Scenario.{fleet_of, IsScenario};
ghost use Rattle.world_core.specs.Kept.{epoch};
ghost use Rattle.fleet_flight.specs.Rows.{rows_upto};
ghost use Rattle.fleet_threads.specs.Member.{IsEpoch};
ghost use Rattle.fleet_threads.specs.Run.{IsTied, IsFirst, air_of};

use crate::ending::{any_halted, epoch_rows};
use crate::epoch::{Epoch, NOBODY};
use crate::gate::Gate;
use crate::member::Member;
use crate::parts::Parts;
use avr_base::NoMemory;
use neighbour_sync::{Air, NodeAir, cut_when_passed, open_air};
use node_core::Row;
use node_runner::{Runner, Scenario};
use std::alloc::Global;
use std::marker::{Brand, Model};
use std::snapshot::Snapshot;
use std::sync::Wait;
use std::sync::atomic::AtomicU64;
use std::thread::Threads;
use world_core::EPOCH;

// A node at reset.
fn first_member(alloc: Global, scenario: &Scenario, air: NodeAir) -> Result<Member, NoMemory>
    requires { air.number < scenario.now.topo.nodes }
    ensures { IfOk result (λ m. (m.air ≡ air) × IsFirst scenario.now m) }
{
    let gap = scenario.lawful_topo().byte_time();
    let runner = Runner::new(alloc, scenario, air.number())?;
    Ok(Member {
        runner,
        air,
        turn: 0,
        gap,
        halted: false,
    })
}

// What an epoch leaves: the parts, for the next one, and its rows.
#[derive(Drop)]
struct Passed {
    parts: Parts,
    rows: Vec<Row>,
}

// Adds the nodes at reset to an empty list.
fn add_members(
    alloc: Global,
    scenario: &Scenario,
    airs: Vec<NodeAir>,
    members: &mut Vec<Member>,
) -> Result<(), NoMemory>
    requires numbers { All (λ a. a.number < scenario.now.topo.nodes) airs.items }
    requires empty { members.old.items ≡ [] }
    ensures airs { OnOk result (map air_of members.new.items ≡ airs.items) }
    ensures first { OnOk result (All (IsFirst scenario.now) members.new.items) }
{
    for air in airs {
        let member = first_member(alloc, scenario, air)?;
        if members.push(member).is_err() {
            return Err(NoMemory);
        }
    }
    Ok(())
}

// One epoch, with the cut of the record when all threads are joined, and with its rows, which are
// taken from the nodes.
fn through<R: Threads + Wait + Sync, G: Gate + Sync>(
    alloc: Global,
    epoch: &Epoch<'_, R, G>,
    parts: Parts,
) -> Result<Passed, NoMemory>
    requires tied { IsTied epoch.now.scenario.now epoch.now.floor epoch.now.floor parts }
    requires epoch { IsEpoch (facts_of (fleet_of epoch.now.scenario.now)) epoch.now.scenario.now epoch.now.floor epoch.now.end }
    requires more { epoch.now.floor < epoch.now.end }
    ensures rows { IfOk result (λ e. rows_upto (fleet_of epoch.now.scenario.now) epoch.now.end ≡ rows_upto (fleet_of epoch.now.scenario.now) epoch.now.floor ++ e.rows.items) }
    ensures tied { IfOk result (λ e. IsTied epoch.now.scenario.now epoch.now.end epoch.now.end e.parts) }
{
    let waiting = Vec::with_capacity(alloc, parts.members.len())?;
    let mut parts = parts.in_session::<Brand, R, G>(epoch, waiting);
    if any_halted(&parts.members) {
        return Err(NoMemory);
    }
    cut_when_passed(epoch.rt, &parts.clocks, &mut parts.air, epoch.end);
    let rows = epoch_rows(
        alloc,
        epoch.scenario,
        epoch.floor,
        epoch.end,
        &mut parts.members,
    )?;
    Ok(Passed { parts, rows })
}

/// A run of all nodes of a scenario on threads of their own, epoch by epoch. It has a record of bounded room; the rows
/// of an epoch are given as it ends.
pub struct ThreadRun {
    alloc: Global,
    scenario: Snapshot<Scenario>,
    limit: u64,
    floor: u64,
    // Nothing is there while an epoch runs, nor after one that came to no end.
    parts: Option<Parts>,
}

// By hand, so that an exit that lets go of a run has one call to prove.
impl Drop for ThreadRun {
    fn drop(self) {
        let ThreadRun {
            alloc: _,
            scenario: _,
            limit: _,
            floor: _,
            parts: _,
        } = self;
    }
}

impl Model for ThreadRun {
    ghost use Rattle.node_runner.specs.Run.{RunAt};
    ghost use Rattle.fleet_threads.specs.Run.{IsRun, is_gone};

    ghost Value = { RunAt };

    ghost view = { λ r. record { scenario = r.scenario.value; floor = r.floor; failed = is_gone r.parts } };

    ghost invariant = { λ r. IsRun r.scenario.value r.floor r.limit r.parts };
}

impl ThreadRun {
    ghost use Rattle.std.specs.Prelude.{◌≡◌, ◌<◌, ◌≤◌, ◌+◌, ◌++◌, ◌==◌, min, false, replicate, IfOk, OnOk};
    ghost use Rattle.world_core.specs.Kept.{epoch, IsPostedTo};
    ghost use Rattle.world_core.specs.Order.{facts_of};
    ghost use Rattle.node_runner.specs.Scenario.{fleet_of, IsScenario};
    ghost use Rattle.world_core.specs.Consistent.{IsConsistent};
    ghost use Rattle.neighbour_sync.specs.Shows.{shown};
    ghost use Rattle.node_runner.specs.Run.{RunAt};
    ghost use Rattle.fleet_flight.specs.Rows.{rows_upto};

    /// The run before its first epoch: all nodes at reset.
    pub fn new(alloc: Global, scenario: &Scenario) -> Result<ThreadRun, NoMemory>
        ensures run { IfOk result (λ r. r ≡ record { scenario = scenario.now; floor = 0; failed = false }) }
        ensures sound { IsScenario scenario.now }
    {
        let limit = scenario.lawful_topo().limit();
        let Ok((clocks, air, airs)) = open_air(alloc, scenario) else {
            return Err(NoMemory);
        };
        let mut parts = Parts {
            clocks,
            air,
            members: Vec::new(alloc),
        };
        add_members(alloc, scenario, airs, &mut parts.members)?;
        Ok(ThreadRun {
            alloc,
            scenario: Snapshot::of(scenario),
            limit,
            floor: 0,
            parts: Some(parts),
        })
    }

    /// Whether the floor of the record is the limit, so that no epoch is left.
    pub fn done(&self) -> bool
        ensures value { result ≡ (self.now.floor == self.now.scenario.topo.limit) }
        ensures within { self.now.floor ≤ self.now.scenario.topo.limit }
        ensures sound { IsScenario self.now.scenario }
    {
        self.floor == self.limit
    }

    /// The cycle that all nodes have reached, or stopped before: 0 at first, and the end of the last epoch after it.
    pub fn floor(&self) -> u64
        ensures { result ≡ self.now.floor }
    {
        self.floor
    }

    /// The record between two epochs. It is cut at the floor, and all sends below that were posted in it. With the clocks
    /// of all nodes, each of which stands at the floor, it is a consistent state.
    pub fn air(&self) -> &Air
        requires { self.now.failed ≡ false }
        ensures world { result.now.world ≡ facts_of (fleet_of self.now.scenario) }
        ensures floor { result.now.floor ≡ self.now.floor }
        ensures posted { IsPostedTo result.now.world self.now.floor result.now.sent }
        ensures consistent { IsConsistent (shown result.now (replicate result.now.world.topo.nodes result.now.floor)) }
    {
        match &self.parts {
            Some(parts) => {
                // The call's clause says that the state is consistent.
                let _consistent = parts.air.samples();
                &parts.air
            }
            None => unreachable!(),
        }
    }

    /// The rows of the next epoch, cycle by cycle and in a cycle node by node, with the last row of each node after the
    /// last epoch. Each node has a thread of its own; all of them are joined before the call answers. The scenario is
    /// the one of `new`. After `NoMemory` the run can only be dropped.
    pub fn epoch<R: Threads + Wait + Sync, G: Gate + Sync>(
        &mut self,
        rt: &R,
        scenario: &Scenario,
        gate: &G,
    ) -> Result<Vec<Row>, NoMemory>
        requires same { scenario.now ≡ self.old.scenario }
        requires more { self.old.floor < self.old.scenario.topo.limit }
        requires sound { self.old.failed ≡ false }
        ensures rows { IfOk result (λ v. rows_upto (fleet_of scenario.now) self.new.floor ≡ rows_upto (fleet_of scenario.now) self.old.floor ++ v.items) }
        ensures after { OnOk result (self.new ≡ record self.old { floor = min (self.old.floor + epoch) self.old.scenario.topo.limit }) }
        ensures scenario { self.new.scenario ≡ self.old.scenario }
    {
        let Some(parts) = self.parts.take() else {
            unreachable!();
        };
        // The call's clause says that the scenario is one (`IsScenario`), which what follows rests on.
        let _lawful = scenario.lawful_topo();
        let floor = self.floor;
        let end = (floor + EPOCH).min(self.limit);
        let refused = AtomicU64::new(NOBODY);
        let epoch = Epoch {
            rt,
            gate,
            scenario,
            refused: &refused,
            floor,
            end,
        };
        let passed = through(self.alloc, &epoch, parts)?;
        self.floor = end;
        self.parts = Some(passed.parts);
        Ok(passed.rows)
    }
}

/// The rows of a whole run of all nodes on threads of their own, in the single global order of cycles: cycle by cycle,
/// in a cycle node by node, then the last row of each node. `Err` only for want of memory.
pub fn run_threads<R: Threads + Wait + Sync, G: Gate + Sync>(
    rt: &R,
    alloc: Global,
    scenario: &Scenario,
    gate: &G,
) -> Result<Vec<Row>, NoMemory>
    ensures { IfOk result (λ rows. rows.items ≡ run_rows (fleet_of scenario.now)) }
{
    let mut run = ThreadRun::new(alloc, scenario)?;
    let mut rows = Vec::new(alloc);
    while !run.done() {
        rows.append(&mut run.epoch(rt, scenario, gate)?)?;
    }
    Ok(rows)
}
