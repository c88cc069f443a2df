// What a node hears of a chained list of sends.
ghost use Rattle.std.specs.Prelude.{◌≡◌, ◌↔◌, ◌<◌, ◌≤◌, true, length, take, IsTrue};
ghost use Rattle.std.specs.List.{All, filter};
ghost use Rattle.air_base.specs.declared.bounds.TheConstants.{MOST_NODES};
ghost use Rattle.world_core.specs.Topology.{IsInside, is_linked};
ghost use Rattle.world_core.specs.Heard.{heard, is_audible, age_of};
ghost use Rattle.world_core.specs.Sends.{sends_of};
ghost use Rattle.world_core.specs.Chain.{newest, Rises, IsChain, AreNewest, IsPlaceOf};
ghost use Rattle.world_core.specs.Over.{heard_over, IsYoung};

use crate::ways::JumpPointer;
use crate::{Topo, heard_with};
use air_base::{Heard, Send};

// Whether at this place, counted from 1, stands a send of node `from` that is too young to be heard.
fn is_young(topo: &Topo, sends: &[Send], place: usize, from: u8, node: u8, cycle: u64) -> bool
    requires place { place ≤ length sends.now }
    requires inside { All (λ x. IsInside topo.now x.node x.cycle) sends.now }
    ensures { IsTrue result ↔ IsYoung topo.now sends.now from node cycle place }
{
    if place == 0 {
        return false;
    }
    let send = &sends[place - 1];
    send.node == from && cycle < send.cycle + topo.latency_of(from, node)
}

// A place further back than this one, at which stands a send that is too young: between the two stand only sends of its
// node that are too young as well.
fn older(
    topo: &Topo,
    sends: &[Send],
    ways: &[JumpPointer],
    place: usize,
    from: u8,
    node: u8,
    cycle: u64,
) -> usize
    requires chain { IsChain sends.now ways.now }
    requires rises { Rises sends.now }
    requires inside { All (λ x. IsInside topo.now x.node x.cycle) sends.now }
    requires place { place ≤ length sends.now }
    requires young { IsYoung topo.now sends.now from node cycle place }
    ensures place { (result < place) × IsPlaceOf sends.now from result }
    ensures rest { filter (is_audible topo.now node cycle) (sends_of from (take result sends.now)) ≡ filter (is_audible topo.now node cycle) (sends_of from (take place sends.now)) }
{
    let way = ways[place - 1];
    if is_young(topo, sends, way.far, from, node, cycle) {
        return way.far;
    }
    way.before
}

// What is heard with the audible sends of one node more, which is linked: newest first, back to the first one that is
// too old.
fn gather(
    topo: &Topo,
    sends: &[Send],
    ways: &[JumpPointer],
    last: usize,
    from: u8,
    node: u8,
    cycle: u64,
    heard: Heard,
) -> Heard
    requires chain { IsChain sends.now ways.now }
    requires last { last ≡ newest sends.now from (length sends.now) }
    requires rises { Rises sends.now }
    requires inside { All (λ x. IsInside topo.now x.node x.cycle) sends.now }
    requires linked { is_linked topo.now from node ≡ true }
    ensures { result ≡ heard_over (age_of topo.now node cycle) heard (filter (is_audible topo.now node cycle) (sends_of from sends.now)) }
{
    let latency = topo.latency_of(from, node);
    let byte_time = topo.byte_time();
    let mut so_far = heard;
    let mut place = last;
    while place > 0 {
        let send = &sends[place - 1];
        let first = send.cycle + latency;
        if first + byte_time <= cycle {
            return so_far;
        }
        if cycle < first {
            place = older(topo, sends, ways, place, from, node, cycle);
        } else {
            if topo.is_open(from, node, send.cycle) {
                so_far = heard_with(topo, so_far, send, node, cycle);
            }
            place = ways[place - 1].before;
        }
    }
    so_far
}

/// What node `node` hears in this cycle of these sends.
pub fn listen(
    topo: &Topo,
    sends: &[Send],
    ways: &[JumpPointer],
    last: &[usize],
    node: u8,
    cycle: u64,
) -> Heard
    requires chain { IsChain sends.now ways.now }
    requires last { AreNewest sends.now last.now }
    requires places { length last.now ≡ MOST_NODES }
    requires rises { Rises sends.now }
    requires inside { All (λ x. IsInside topo.now x.node x.cycle) sends.now }
    ensures { result ≡ heard topo.now sends.now node cycle }
{
    let mut so_far = Heard {
        status: 0,
        byte: 0,
        age: 0,
    };
    for from in topo.neighbours(node) {
        let newest = last[usize::from(*from)];
        so_far = gather(topo, sends, ways, newest, *from, node, cycle, so_far);
    }
    so_far
}
