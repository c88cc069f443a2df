// A plain, slow program that says whether a state of the air is consistent, straight from the definition.
ghost use Rattle.std.specs.Prelude.{◌≡◌, ◌↔◌, ◌<◌, ◌≤◌, length, take, IfOk, IsTrue};
ghost use Rattle.std.specs.List.{All, filter};
ghost use Rattle.world_core.specs.Topology.{IsInside};
ghost use Rattle.world_core.specs.Posted.{posted};
ghost use Rattle.world_core.specs.Kept.{is_kept};
ghost use Rattle.world_core.specs.Consistent.{IsConsistent};
ghost use Rattle.air_facts.specs.ByNode.{NodeAgrees, NodesPostedFor, SampleAgrees};

use air_base::{Ask, Heard, Send};
use air_cases::{count_below, is_asked, own_sends};
use list_world::{ListWorld, heard_of};
use std::alloc::{AllocError, Global};
use world_core::{Topo, World};

fn are_same(a: &[Send], b: &[Send]) -> bool
    ensures { IsTrue result ↔ (a.now ≡ b.now) }
{
    a == b
}

/// Whether all sends lie inside the topology.
pub fn are_inside(topo: &Topo, sends: &[Send]) -> bool
    ensures { IsTrue result ↔ All (λ x. IsInside topo.now x.node x.cycle) sends.now }
{
    let nodes = topo.nodes();
    let limit = topo.limit();
    sends.iter().all(|s| s.node < nodes && s.cycle < limit)
}

// The first sent[k] sends of each node k.
fn posted_of(alloc: Global, world: &ListWorld, sent: &[u64]) -> Result<Vec<Send>, AllocError>
    requires { length sent.now ≡ world.now.topo.nodes }
    ensures { IfOk result (λ v. v.items ≡ posted world.now sent.now) }
{
    let mut all = Vec::new(alloc);
    for node in 0..world.topo().nodes() {
        let sends = own_sends(alloc, node, world.sends())?;
        let count = sends.len().min(sent[usize::from(node)] as usize);
        all.extend_from_slice(&sends[..count])?;
    }
    Ok(all)
}

// Whether some node may hear the send from the cycle `floor` on.
fn is_kept(topo: &Topo, floor: u64, send: &Send) -> bool
    ensures { result ≡ is_kept topo.now floor send.now }
{
    let over = topo.reach() + topo.byte_time();
    floor < over || floor - over < send.cycle
}

// Of the first `count` sends, those that are kept at the floor.
fn kept_of(
    alloc: Global,
    topo: &Topo,
    floor: u64,
    sends: &[Send],
    count: usize,
) -> Result<Vec<Send>, AllocError>
    requires { count ≤ length sends.now }
    ensures { IfOk result (λ v. v.items ≡ filter (is_kept topo.now floor) (take count sends.now)) }
{
    sends[..count]
        .iter()
        .filter(|s| is_kept(topo, floor, s))
        .copied()
        .collect(alloc)
}

// Whether one node's clock, count and recorded sends agree with the world.
fn node_agrees(
    alloc: Global,
    world: &ListWorld,
    clocks: &[u64],
    sent: &[u64],
    floor: u64,
    sends: &[Send],
    node: u8,
) -> Result<bool, AllocError>
    requires { (node < length clocks.now) × (node < length sent.now) }
    ensures { IfOk result (λ b. IsTrue b ↔ NodeAgrees world.now floor clocks.now sent.now sends.now node) }
{
    let clock = clocks[usize::from(node)];
    let count = sent[usize::from(node)];
    let all = own_sends(alloc, node, world.sends())?;
    let recorded = own_sends(alloc, node, sends)?;
    if clock > world.topo().limit() {
        return Ok(false);
    }
    if count_below(world.sends(), node, clock) > count {
        return Ok(false);
    }
    if count > all.len() as u64 {
        return Ok(false);
    }
    if count_below(world.sends(), node, floor) > count {
        return Ok(false);
    }
    let kept = kept_of(alloc, world.topo(), floor, &all, count as usize)?;
    Ok(are_same(&recorded, &kept))
}

// Whether all sends are posted that node `node` could hear in this cycle.
fn is_all_posted(world: &ListWorld, sent: &[u64], node: u8, cycle: u64) -> bool
    requires { length sent.now ≡ world.now.topo.nodes }
    ensures { IsTrue result ↔ NodesPostedFor world.now sent.now world.now.topo.nodes node cycle }
{
    let topo = world.topo();
    for from in 0..topo.nodes() {
        if topo.needs(from, node, cycle) {
            let last = cycle.saturating_sub(topo.latency_of(from, node));
            if count_below(world.sends(), from, last + 1) > sent[usize::from(from)] {
                return false;
            }
        }
    }
    true
}

// Whether one sample is final, where `so_far` is what is posted.
fn sample_agrees(
    world: &ListWorld,
    floor: u64,
    sent: &[u64],
    so_far: &[Send],
    ask: &Ask,
    heard: &Heard,
) -> bool
    requires sent { length sent.now ≡ world.now.topo.nodes }
    requires posted { so_far.now ≡ posted world.now sent.now }
    ensures { IsTrue result ↔ SampleAgrees world.now floor sent.now (ask.now, heard.now) }
{
    let topo = world.topo();
    floor <= ask.cycle
        && is_asked(world.asks(), ask)
        && *heard == heard_of(topo, world.sends(), ask.node, ask.cycle)
        && *heard == heard_of(topo, so_far, ask.node, ask.cycle)
        && is_all_posted(world, sent, ask.node, ask.cycle)
}

/// Whether these clocks, counts and records are consistent in this world, where the records are cut up to cycle
/// `floor`.
pub fn is_consistent(
    alloc: Global,
    world: &ListWorld,
    clocks: &[u64],
    sent: &[u64],
    floor: u64,
    sends: &[Send],
    samples: &[(Ask, Heard)],
) -> Result<bool, AllocError>
    ensures { IfOk result (λ b. IsTrue b ↔ IsConsistent record { world = world.now; clocks = clocks.now; sent = sent.now; floor = floor; sends = sends.now; samples = samples.now }) }
{
    let topo = world.topo();
    let nodes = topo.nodes();
    if clocks.len() != usize::from(nodes) || sent.len() != usize::from(nodes) {
        return Ok(false);
    }
    if !are_inside(topo, sends) {
        return Ok(false);
    }
    for node in 0..nodes {
        if !node_agrees(alloc, world, clocks, sent, floor, sends, node)? {
            return Ok(false);
        }
    }
    let so_far = posted_of(alloc, world, sent)?;
    for (ask, heard) in samples {
        if !sample_agrees(world, floor, sent, &so_far, ask, heard) {
            return Ok(false);
        }
    }
    Ok(true)
}
