// Two nodes that hear each other and send nothing: each waits at its samples until the other one is far enough, or
// halts.
ghost use Rattle.std.specs.Prelude.{◌≡◌};
ghost use Rattle.neighbour_sync.specs.Parts.{AreParts};

use crate::calls::is_soon;
use crate::rounds::two_of;
use air_base::Ask;
use air_cases::count_below;
use list_world::ListWorld;
use neighbour_sync::{Air, Clocks, NodeAir, SampleOutcome, Session, Shared, open_air};
use std::alloc::Global;
use std::marker::Brand;
use std::sync::Wait;
use std::thread;
use std::thread::{Threads, join};
use std::time::{Clock, Duration, Instant};
use world_core::{Link, Topo, World};

const LATENCY: u64 = 300;

const BYTE_TIME: u64 = 256;

// How many samples each node takes, at most.
const MOST: u64 = 10_000;

// How long a node waits that is then told to halt, in milliseconds.
const PAUSE: u64 = 50;

// A world in which two nodes hear each other, and each samples so often, a latency apart.
fn pair_world(alloc: Global, samples: u64) -> Option<ListWorld> {
    let samples = samples.min(MOST);
    let mut links = Vec::new(alloc);
    links.push(Link { from: 0, to: 1 }).ok()?;
    links.push(Link { from: 1, to: 0 }).ok()?;
    let topo = Topo::new(2, (samples + 2) * LATENCY, LATENCY, BYTE_TIME, links).ok()?;
    let mut asks = Vec::new(alloc);
    for number in 0..samples {
        for node in 0..2u8 {
            let cycle = (number + 1) * LATENCY;
            asks.push(Ask { node, cycle }).ok()?;
        }
    }
    ListWorld::new(topo, Vec::new(alloc), asks).ok()
}

// A node raises its clock, or this answers false where that is forbidden.
fn raise_to<N: Session>(
    shared: &Shared<ListWorld, N>,
    world: &ListWorld,
    node: &mut NodeAir,
    clock: u64,
) -> bool
    requires world { N.world ≡ world.now }
    requires session { (node.old.table ≡ N.table) × (node.old.world ≡ N.world) }
    ensures same { (node.new.table ≡ node.old.table) × (node.new.world ≡ node.old.world) × (node.new.number ≡ node.old.number) }
{
    let is_allowed = clock >= node.clock()
        && clock <= world.topo().limit()
        && count_below(world.sends(), node.number(), clock) <= node.told();
    if is_allowed {
        node.raise(shared, clock);
    }
    is_allowed
}

// Takes all samples of a node, each as soon as it may, its clock where the sample is. Whether each was answered.
fn sample_each<N: Session, R: Wait>(
    rt: &R,
    shared: &Shared<ListWorld, N>,
    world: &ListWorld,
    mut node: NodeAir,
    floor: u64,
) -> bool
    requires world { N.world ≡ world.now }
    requires session { (node.table ≡ N.table) × (node.world ≡ N.world) }
    requires floor { floor ≡ N.floor }
{
    let asks = world.asks();
    for place in 0..asks.len() {
        let ask = asks[place];
        if ask.node == node.number() && ask.cycle >= floor {
            if !raise_to(shared, world, &mut node, ask.cycle) {
                return false;
            }
            match node.sample_when_passed(rt, shared, ask.cycle) {
                SampleOutcome::Heard(_) => {}
                SampleOutcome::Halted | SampleOutcome::NoMemory => return false,
            }
        }
    }
    true
}

// Tells all nodes to halt, once the other one waits.
fn halt_late<N: Session, R: Wait + Clock>(
    rt: &R,
    shared: &Shared<ListWorld, N>,
    mut node: NodeAir,
) -> bool
    requires session { (node.table ≡ N.table) × (node.world ≡ N.world) }
{
    thread::sleep(rt, Duration::from_millis(PAUSE));
    node.halt(shared);
    true
}

// What the nodes do, in one session. Whether each did all of it.
fn in_session<N: Session + std::marker::Send + Sync, R: Threads + Wait + Clock + Sync>(
    rt: &R,
    clocks: Clocks<ListWorld>,
    air: Air,
    world: &ListWorld,
    nodes: (NodeAir, NodeAir),
    halts: bool,
) -> bool
    requires parts { AreParts N.table N.world N.floor clocks air }
    requires world { N.world ≡ world.now }
    requires first { (nodes.0.table ≡ N.table) × (nodes.0.world ≡ N.world) }
    requires second { (nodes.1.table ≡ N.table) × (nodes.1.world ≡ N.world) }
{
    let floor = air.floor();
    let held: Shared<ListWorld, N> = Shared::new(clocks, air);
    let shared = &held;
    let (first, second) = nodes;
    let (one, other) = join(
        rt,
        move || -> bool
            requires world { N.world ≡ world.now }
            requires first { (first.table ≡ N.table) × (first.world ≡ N.world) }
            requires floor { floor ≡ N.floor }
        {
            if halts {
                halt_late(rt, shared, first)
            } else {
                sample_each(rt, shared, world, first, floor)
            }
        },
        move || -> bool
            requires world { N.world ≡ world.now }
            requires second { (second.table ≡ N.table) × (second.world ≡ N.world) }
            requires floor { floor ≡ N.floor }
        { sample_each(rt, shared, world, second, floor) != halts },
    );
    one && other
}

// Whether two nodes did what they are to, before long.
fn is_done<R: Threads + Wait + Clock + Sync>(
    rt: &R,
    alloc: Global,
    samples: u64,
    halts: bool,
) -> Option<bool> {
    let world = pair_world(alloc, samples)?;
    let Ok((clocks, air, nodes)) = open_air(alloc, &world) else {
        return None;
    };
    let nodes = two_of(&clocks, nodes)?;
    let begun = Instant::now(rt).ok()?;
    let done = in_session::<Brand, R>(rt, clocks, air, &world, nodes, halts);
    Some(done && is_soon(rt, begun))
}

/// What comes of two nodes on two threads each of which waits for the other one at each of so many samples. `None` where
/// it took as long as it does where nobody is woken, or there was no memory.
pub fn at_samples<R: Threads + Wait + Clock + AllocGlobal + Sync>(
    rt: &R,
    samples: u64,
) -> Option<String> {
    if !is_done(rt, rt.alloc(), samples, false)? {
        return None;
    }
    format!(in rt.alloc(); "woken at each of {samples} samples").ok()
}

/// What comes of a node that waits at its sample for one that halts. `None` where it was told late, or there was no
/// memory.
pub fn at_halt<R: Threads + Wait + Clock + AllocGlobal + Sync>(rt: &R) -> Option<String> {
    if !is_done(rt, rt.alloc(), 1, true)? {
        return None;
    }
    format!(in rt.alloc(); "told of the halt while it waited").ok()
}
