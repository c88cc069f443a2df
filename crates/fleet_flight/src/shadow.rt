// Nodes that run by themselves behind the others, to be watched.
ghost use Rattle.std.specs.Prelude.{◌≡◌, ◌≤◌, ◌<◌, ◌+◌, ◌-◌, [], false, None, IfOk, OnOk};
ghost use Rattle.std.specs.List.{All};
ghost use Rattle.air_base.specs.Bounds.{LAST_CYCLE};
ghost use Rattle.world_core.specs.Topology.{IsInside};
ghost use Rattle.air_base.specs.NodeRun.{Rests};
ghost use Rattle.node_core.specs.Cycle.{node_kind};
ghost use Rattle.node_core.specs.Pace.Midway.{OnlyRests};
ghost use Rattle.fleet_flight.specs.Paused.{HasRun};
ghost use Rattle.fleet_flight.specs.Shadows.{AreBytes, Goes, IsShadow, IsSpot, Ticks, ear_of, group_of};

use crate::places::{byte_of, compare};
use crate::sights::{Sights, sights_of};
use avr_base::NoMemory;
use node_core::{Node, Reached};
use node_places::{Change, Place};
use std::alloc::Global;
use world_core::{SendLog, Topo};

/// A second node in the state of one of a run, that is watched: it goes the same way behind the run, cycle by cycle, and
/// is answered from the run's record of sends.
pub struct Shadow {
    pub node: Node,
    /// The number of the node that it is the shadow of.
    pub number: u8,
    /// What of it is watched.
    pub places: Vec<Place>,
    /// Which of the places are bytes of its SRAM, and which instructions.
    pub sights: Sights,
    /// What of it is looked at before the next cycle, by place.
    pub last: Vec<u8>,
}

// By hand, so that an exit that lets go of one, here and in the crates above, has one call to prove.
impl Drop for Shadow {
    fn drop(self) {
        let Shadow {
            node: _,
            number: _,
            places: _,
            sights: _,
            last: _,
        } = self;
    }
}

// What is looked at of each place before the next cycle.
fn bytes_of(alloc: Global, node: &Node, places: &[Place]) -> Result<Vec<u8>, NoMemory>
    requires { All (λ p. IsSpot p.spot) places.now }
    ensures { IfOk result (λ v. AreBytes places.now node.now.state v.items) }
{
    let mut bytes = Vec::new(alloc);
    for place in places {
        if bytes.push(byte_of(node, place.spot)).is_err() {
            return Err(NoMemory);
        }
    }
    Ok(bytes)
}

impl Shadow {
    /// The shadow of node `number`, of which `node` is another one in the same state and without rows, at these places.
    pub fn new(
        alloc: Global,
        node: Node,
        number: u8,
        places: Vec<Place>,
    ) -> Result<Shadow, NoMemory>
        requires calm { node.asking ≡ false }
        requires rows { node.rows ≡ [] }
        requires spots { All (λ p. IsSpot p.spot) places.items }
        ensures shadow { IfOk result (λ v. IsShadow v) }
        ensures node { IfOk result (λ v. v.node ≡ node) }
        ensures group { IfOk result (λ v. group_of v ≡ record { node = number; places = places.items }) }
    {
        let last = bytes_of(alloc, &node, &places)?;
        let sights = sights_of(alloc, &places)?;
        Ok(Shadow {
            node,
            number,
            places,
            sights,
            last,
        })
    }
}

// A cycle of a node that is not stopped; what it hears in it is found in the record.
fn one_cycle(node: &mut Node, number: u8, topo: &Topo, log: &SendLog) -> Result<(), NoMemory>
    requires going { node.old.state.stop ≡ None }
    requires calm { node.old.asking ≡ false }
    requires early { node.old.cycle < LAST_CYCLE }
    requires inside { All (λ x. IsInside topo.now x.node x.cycle) log.now.sends }
    ensures { OnOk result (Ticks node.old (ear_of topo.now log.now.sends number node.old.cycle) node.new) }
{
    let cycle = node.cycle();
    match node.run_until(cycle + 1) {
        Reached::NoMemory => Err(NoMemory),
        Reached::Ask { .. } => {
            node.answer(log.heard(topo, number, cycle));
            Ok(())
        }
        Reached::Sent { .. } => Ok(()),
        Reached::Cycle => Ok(()),
        Reached::Stopped => Ok(()),
    }
}

// Its rows are dropped. Where it has none, the room for them is kept.
fn forget_rows(node: &mut Node)
    requires { node.old.asking ≡ false }
    ensures { node.new ≡ record node.old { rows = [] } }
{
    if !node.rows().is_empty() {
        let _ = node.take_rows();
    }
}

// Its next cycle, if it is not stopped, and what is seen in it.
fn step(
    shadow: &mut Shadow,
    topo: &Topo,
    log: &SendLog,
    changes: &mut Vec<Change>,
) -> Result<(), NoMemory>
    requires going { shadow.old.node.state.stop ≡ None }
    requires early { shadow.old.node.cycle < LAST_CYCLE }
    requires shadow { IsShadow shadow.old }
    requires inside { All (λ x. IsInside topo.now x.node x.cycle) log.now.sends }
    ensures goes { OnOk result (Goes (ear_of topo.now log.now.sends shadow.old.number) shadow.old.node.cycle 1 shadow.old changes.old.items shadow.new changes.new.items) }
    ensures shadow { OnOk result (IsShadow shadow.new) }
    ensures cycle { OnOk result (shadow.new.node.cycle ≡ shadow.old.node.cycle + 1) }
{
    let cycle = shadow.node.cycle();
    let begun = shadow.node.begun();
    one_cycle(&mut shadow.node, shadow.number, topo, log)?;
    forget_rows(&mut shadow.node);
    compare(
        &shadow.places,
        &shadow.sights,
        &mut shadow.last,
        begun,
        cycle,
        &shadow.node,
        changes,
    )?;
    Ok(())
}

// A rest, up to the cycle `end` at most: none where an instruction begins.
#[inline]
fn rest(node: &mut Node, end: u64)
    requires ahead { node.old.cycle ≤ end }
    requires early { end ≤ LAST_CYCLE }
    requires calm { node.old.asking ≡ false }
    requires going { node.old.state.stop ≡ None }
    ensures rests { Rests node_kind node.old node.new.cycle node.new }
    ensures within { node.new.cycle ≤ end }
    ensures only { OnlyRests node.old.cycle (node.new.cycle - node.old.cycle) node.old.state }
    ensures rows { node.new.rows ≡ node.old.rows }
{
    if node.begun().is_some() {
        return;
    }
    node.rest_until(end);
}

// A rest, up to the cycle `end` at most, and the cycle behind it where that is before.
fn turn(
    shadow: &mut Shadow,
    topo: &Topo,
    log: &SendLog,
    end: u64,
    changes: &mut Vec<Change>,
) -> Result<(), NoMemory>
    requires going { shadow.old.node.state.stop ≡ None }
    requires more { shadow.old.node.cycle < end }
    requires early { end ≤ LAST_CYCLE }
    requires shadow { IsShadow shadow.old }
    requires inside { All (λ x. IsInside topo.now x.node x.cycle) log.now.sends }
    ensures goes { OnOk result (Goes (ear_of topo.now log.now.sends shadow.old.number) shadow.old.node.cycle (shadow.new.node.cycle - shadow.old.node.cycle) shadow.old changes.old.items shadow.new changes.new.items) }
    ensures shadow { OnOk result (IsShadow shadow.new) }
    ensures moves { OnOk result (shadow.old.node.cycle < shadow.new.node.cycle) }
    ensures within { OnOk result (shadow.new.node.cycle ≤ end) }
{
    rest(&mut shadow.node, end);
    if shadow.node.cycle() < end {
        step(shadow, topo, log, changes)?;
        return Ok(());
    }
    Ok(())
}

/// Runs a shadow from the cycle `floor`, where it stands or before which it stopped, to the cycle `end`, and puts behind
/// the others what is seen of it.
pub fn follow(
    shadow: &mut Shadow,
    topo: &Topo,
    log: &SendLog,
    floor: u64,
    end: u64,
    changes: &mut Vec<Change>,
) -> Result<(), NoMemory>
    requires shadow { IsShadow shadow.old }
    requires has { HasRun node_kind floor shadow.old.node }
    requires more { floor ≤ end }
    requires early { end ≤ LAST_CYCLE }
    requires inside { All (λ x. IsInside topo.now x.node x.cycle) log.now.sends }
    ensures goes { OnOk result (Goes (ear_of topo.now log.now.sends shadow.old.number) floor (end - floor) shadow.old changes.old.items shadow.new changes.new.items) }
    ensures shadow { OnOk result (IsShadow shadow.new) }
    ensures has { OnOk result (HasRun node_kind end shadow.new.node) }
{
    while shadow.node.cycle() < end {
        if shadow.node.stopped().is_some() {
            return Ok(());
        }
        turn(shadow, topo, log, end, changes)?;
    }
    Ok(())
}
