// The ways back along each node's own sends.
//
// Each send holds the place of the one before it of the same node, and a place far back, chosen so that a search for a
// cycle takes a number of steps that grows with the logarithm of the number of the node's sends (the jump pointers of
// skew binary numbers).
ghost use Rattle.std.specs.Prelude.{◌≡◌, ℕ, ◌<◌, ◌≤◌, nat_lt, length, slice_index, vec_capacity};
ghost use Rattle.std.specs.List.{All, filter};
ghost use Rattle.air_base.specs.declared.bounds.TheConstants.{MOST_NODES};
ghost use Rattle.world_core.specs.Kept.{is_kept};
ghost use Rattle.world_core.specs.Chain.{newest, AreBack, IsChain, AreNewest};

use crate::Topo;
use air_base::{MOST_NODES, Send};

/// How to go back from a send. A place counts from 1, and 0 is none.
#[derive(Clone, Copy)]
pub struct JumpPointer {
    /// The place of the send before it of the same node.
    pub before: usize,
    /// An earlier place, to be tried first in a search.
    pub far: usize,
    /// How many sends of the node there are up to it.
    pub depth: usize,
}

// How many sends of the node there are up to this place.
fn depth_at(ways: &[JumpPointer], place: usize) -> usize
    requires { place ≤ length ways.now }
{
    if place == 0 {
        return 0;
    }
    ways[place - 1].depth
}

// The place far back for a send behind the one at this place.
fn far_from(ways: &[JumpPointer], before: usize) -> usize
    requires before { before ≤ length ways.now }
    requires back { AreBack ways.now }
    ensures { result ≤ before }
{
    if before == 0 {
        return 0;
    }
    let last = ways[before - 1];
    if last.far == 0 {
        return before;
    }
    let over = ways[last.far - 1];
    let first_leap = last.depth.saturating_sub(over.depth);
    let second_leap = over.depth.saturating_sub(depth_at(ways, over.far));
    if first_leap == second_leap {
        over.far
    } else {
        before
    }
}

/// How to go back from a send behind the one at this place.
pub fn way_from(ways: &[JumpPointer], before: usize) -> JumpPointer
    requires before { before ≤ length ways.now }
    requires back { AreBack ways.now }
    ensures before { result.before ≡ before }
    ensures far { result.far ≤ before }
{
    JumpPointer {
        before,
        far: far_from(ways, before),
        depth: depth_at(ways, before).saturating_add(1),
    }
}

/// No node has sent.
pub fn no_places() -> [usize; MOST_NODES as usize]
    ensures { (k : ℕ) → k < MOST_NODES → slice_index result k ≡ 0 }
{
    [0; MOST_NODES as usize]
}

// Drops the sends up to this cycle.
fn keep_above(sends: &mut Vec<Send>, bound: u64)
    ensures items { sends.new.items ≡ filter (λ x. nat_lt bound x.cycle) sends.old.items }
    ensures capacity { vec_capacity sends.new ≡ vec_capacity sends.old }
{
    sends.retain(|s| bound < s.cycle);
}

/// Drops the sends that are over at this cycle.
pub fn keep(sends: &mut Vec<Send>, topo: &Topo, floor: u64)
    ensures items { sends.new.items ≡ filter (is_kept topo.now floor) sends.old.items }
    ensures capacity { vec_capacity sends.new ≡ vec_capacity sends.old }
{
    let span = topo.reach() + topo.byte_time();
    if span <= floor {
        keep_above(sends, floor - span);
    }
}

/// For each node the place of its last send, counted from 1, or 0. The ways back of all sends go into `ways`.
pub fn chained(sends: &[Send], ways: &mut Vec<JumpPointer>) -> [usize; MOST_NODES as usize]
    requires nodes { All (λ x. x.node < MOST_NODES) sends.now }
    requires room { length sends.now ≤ vec_capacity ways.old }
    ensures chain { IsChain sends.now ways.new.items }
    ensures last { AreNewest sends.now result }
    ensures capacity { vec_capacity ways.new ≡ vec_capacity ways.old }
{
    ways.clear();
    let mut last = no_places();
    for (place, send) in sends.iter().enumerate() {
        let node = usize::from(send.node);
        let way = way_from(ways, last[node]);
        ways.push_reserved(way);
        last[node] = place + 1;
    }
    last
}
