// How far a node may run ahead of the others.
ghost use Rattle.std.specs.Prelude.{◌≤◌};
ghost use Rattle.std.specs.List.{All};
ghost use Rattle.world_core.specs.Topology.{latency_of};
ghost use Rattle.world_core.specs.Kept.{epoch};

use world_core::{EPOCH, Topo};

/// How many cycles a node may be ahead of all others and yet hear all that it can: the least latency of all links, in
/// cycles. Where nobody hears anybody, that is an epoch.
pub fn lookahead(topo: &Topo) -> u64
    ensures some { 1 ≤ result }
    ensures most { result ≤ epoch }
    ensures each { All (λ l. result ≤ latency_of topo.now l.from l.to) topo.now.links }
{
    let mut least = EPOCH;
    for link in topo.links() {
        least = least.min(topo.latency_of(link.from, link.to));
    }
    least
}
