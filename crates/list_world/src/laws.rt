// The first entry of a list that breaks a law of the air.
ghost use Rattle.std.specs.Prelude.{◌≡◌, ◌↔◌, ◌+◌, ◌≤◌, length, slice_index, IsTrue, MatchOption};
ghost use Rattle.world_core.specs.FirstFault.{AllKeep, IsFirstFault};
ghost use Rattle.world_core.specs.Topology.{IsInside};
ghost use Rattle.world_core.specs.Lawful.{IsNextSend, IsNextAsk};

use air_base::{Ask, MOST_NODES, Send};
use world_core::Topo;

// Whether an entry of this node may come in this cycle, where `free` is the cycle from which on each node may have one.
fn may_come(topo: &Topo, free: &[u64], node: u8, cycle: u64) -> bool
    requires { topo.now.nodes ≤ length free.now }
    ensures { IsTrue result ↔ (IsInside topo.now node cycle × (slice_index free.now node ≤ cycle)) }
{
    node < topo.nodes() && cycle < topo.limit() && free[usize::from(node)] <= cycle
}

/// The place of the first send that lies outside, or too early behind its node's send before it.
pub fn send_fault(topo: &Topo, sends: &[Send]) -> Option<usize>
    ensures { MatchOption result (AllKeep (IsNextSend topo.now) sends.now) (IsFirstFault (IsNextSend topo.now) sends.now) }
{
    let gap = topo.byte_time();
    let mut free = [0u64; MOST_NODES as usize];
    for (place, send) in sends.iter().enumerate() {
        if !may_come(topo, &free, send.node, send.cycle) {
            return Some(place);
        }
        free[usize::from(send.node)] = send.cycle + gap;
    }
    None
}

/// The place of the first sample that lies outside, or not behind its node's sample before it.
pub fn ask_fault(topo: &Topo, asks: &[Ask]) -> Option<usize>
    ensures { MatchOption result (AllKeep (IsNextAsk topo.now) asks.now) (IsFirstFault (IsNextAsk topo.now) asks.now) }
{
    // The call's clause says that the topology is lawful, so that each node has its place in `free`.
    let _nodes = topo.nodes();
    let mut free = [0u64; MOST_NODES as usize];
    for (place, ask) in asks.iter().enumerate() {
        if !may_come(topo, &free, ask.node, ask.cycle) {
            return Some(place);
        }
        free[usize::from(ask.node)] = ask.cycle + 1;
    }
    None
}
