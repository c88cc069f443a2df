// Two nodes on one shared air: node 0 sends one byte after another, and node 1 takes a sample of each as soon as it
// may. A round has an air of its own, in a session of its own.
ghost use Rattle.std.specs.Prelude.{◌≡◌, ◌+◌, ◌≤◌, ◌<◌, [], IfSome};
ghost use Rattle.std.specs.List.{All};
ghost use Rattle.world_core.specs.Sends.{sends_of};
ghost use Rattle.neighbour_sync.specs.Seats.{AreFirstNodes, first_node};
ghost use Rattle.world_core.specs.Kept.{epoch};
ghost use Rattle.neighbour_sync.specs.Parts.{AreParts};

use crate::nodes::{are_early, post_each, sample_all, send_all};
use crate::world::line_world;
use air_base::Send;
use air_cases::own_sends;
use list_world::ListWorld;
use neighbour_sync::{Air, Clocks, NodeAir, Session, Shared, open_air};
use std::alloc::Global;
use std::marker::Brand;
use std::sync::Wait;
use std::thread::{Threads, join};
use world_core::World;

// How many bytes node 0 sends.
const BYTES: u64 = 1_000;

// What the nodes do.
#[derive(Clone, Copy)]
enum Work {
    /// Node 0 posts, each byte by one try.
    Post,
    /// Node 0 posts, and then node 1 samples.
    Sample,
    /// Both at once, each in a thread of its own.
    Both,
}

// What came of it: how many sends and samples are recorded, and how many samples heard one byte.
#[derive(Clone, Copy, Default)]
struct Round {
    sends: usize,
    samples: usize,
    heard: u64,
}

/// The parts of the nodes 0 and 1.
pub fn two_of(clocks: &Clocks<ListWorld>, mut nodes: Vec<NodeAir>) -> Option<(NodeAir, NodeAir)>
    requires { AreFirstNodes clocks.now.table clocks.now.world nodes.items }
    ensures first { IfSome result (λ p. p.0 ≡ first_node clocks.now.table clocks.now.world 0) }
    ensures second { IfSome result (λ p. p.1 ≡ first_node clocks.now.table clocks.now.world 1) }
{
    // Only the contract names it.
    let _ = clocks;
    let second = nodes.pop()?;
    let first = nodes.pop()?;
    if nodes.is_empty() {
        Some((first, second))
    } else {
        None
    }
}

// What the nodes do, in one session. How many samples heard one byte.
fn in_session<N: Session + std::marker::Send + Sync, R: Threads + Wait + Sync>(
    rt: &R,
    clocks: Clocks<ListWorld>,
    air: Air,
    world: &ListWorld,
    nodes: (NodeAir, NodeAir),
    sends: &[Send],
    work: Work,
) -> (Air, u64)
    requires parts { AreParts N.table N.world N.floor clocks air }
    requires world { N.world ≡ world.now }
    requires first { (nodes.0.table ≡ N.table) × (nodes.0.world ≡ N.world) }
    requires second { (nodes.1.table ≡ N.table) × (nodes.1.world ≡ N.world) }
    requires sends { sends.now ≡ sends_of nodes.0.number N.world.sends }
    requires early { All (λ x. x.cycle < N.floor + epoch) sends.now }
{
    let floor = air.floor();
    let shared: Shared<ListWorld, N> = Shared::new(clocks, air);
    let (first, second) = nodes;
    let heard = match work {
        Work::Post => {
            post_each(rt, &shared, first, sends);
            0
        }
        Work::Sample => {
            // The node that comes back sends nothing more.
            let _ = send_all(rt, &shared, world, first, sends);
            sample_all(rt, &shared, second, world.asks(), floor)
        }
        Work::Both => at_once(rt, &shared, world, first, second, sends, floor),
    };
    let (_, air) = shared.into_parts();
    (air, heard)
}

// Both nodes at once.
fn at_once<N: Session + std::marker::Send + Sync, R: Threads + Wait + Sync>(
    rt: &R,
    shared: &Shared<ListWorld, N>,
    world: &ListWorld,
    first: NodeAir,
    second: NodeAir,
    sends: &[Send],
    floor: u64,
) -> u64
    requires world { N.world ≡ world.now }
    requires first { (first.table ≡ N.table) × (first.world ≡ N.world) }
    requires second { (second.table ≡ N.table) × (second.world ≡ N.world) }
    requires sends { sends.now ≡ sends_of first.number N.world.sends }
    requires early { All (λ x. x.cycle < N.floor + epoch) sends.now }
    requires floor { floor ≡ N.floor }
{
    let asks = world.asks();
    let (_, heard) = join(
        rt,
        move || -> NodeAir
            requires world { N.world ≡ world.now }
            requires first { (first.table ≡ N.table) × (first.world ≡ N.world) }
            requires sends { sends.now ≡ sends_of first.number N.world.sends }
            requires early { All (λ x. x.cycle < N.floor + epoch) sends.now }
        { send_all(rt, shared, world, first, sends) },
        move || -> u64
            requires second { (second.table ≡ N.table) × (second.world ≡ N.world) }
            requires asks { asks.now ≡ N.world.asks }
            requires floor { floor ≡ N.floor }
        { sample_all(rt, shared, second, asks, floor) },
    );
    heard
}

// One round on a new air of this world. `None` where there is no memory, the world has other nodes than two, or not all
// sends were recorded.
fn run_round<R: Threads + Wait + Sync>(
    rt: &R,
    alloc: Global,
    world: &ListWorld,
    work: Work,
) -> Option<Round> {
    let Ok(sends) = own_sends(alloc, 0, world.sends()) else {
        return None;
    };
    let Ok((clocks, air, nodes)) = open_air(alloc, world) else {
        return None;
    };
    if !are_early(&sends, air.floor()) {
        return None;
    }
    let nodes = two_of(&clocks, nodes)?;
    let (air, heard) = in_session::<Brand, R>(rt, clocks, air, world, nodes, &sends, work);
    if air.sends().len() != sends.len() {
        return None;
    }
    Some(Round {
        sends: air.sends().len(),
        samples: air.samples().len(),
        heard,
    })
}

// What the nodes do, by a word.
fn work_of(word: &str) -> Option<Work> {
    match word {
        "post" => Some(Work::Post),
        "sample" => Some(Work::Sample),
        "both" => Some(Work::Both),
        _ => None,
    }
}

/// What comes of the last of so many rounds of `post`, `sample` or `both`. `None` where there was no memory, or a send
/// was not recorded.
pub fn run_rounds<R: AllocGlobal + Threads + Wait + Sync>(
    rt: &R,
    word: &str,
    count: u64,
) -> Option<String> {
    let work = work_of(word)?;
    let world = line_world(rt.alloc(), BYTES)?;
    let mut last = Round::default();
    for _ in 0..count {
        last = run_round(rt, rt.alloc(), &world, work)?;
    }
    let Round {
        sends,
        samples,
        heard,
    } = last;
    format!(in rt.alloc();
        "{sends} sends and {samples} samples recorded, {heard} of them heard a byte"
    ).ok()
}
