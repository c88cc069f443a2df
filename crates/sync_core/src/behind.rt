// Which node a sample has to wait for.
ghost use Rattle.std.specs.Prelude.{◌≡◌, ◌↔◌, ◌<◌, IsTrue, IfSome, MatchOption, length};
ghost use Rattle.sync_core.specs.Sampling.{IsBehind, NoneBehind, IsFirstBehind};

use world_core::Topo;

// Whether the sample has to wait for node `other`.
fn is_behind(topo: &Topo, clocks: &[u64], node: u8, cycle: u64, other: u8) -> bool
    requires { other < length clocks.now }
    ensures { IsTrue result ↔ IsBehind topo.now clocks.now node cycle other }
{
    topo.needs(other, node, cycle)
        && clocks[usize::from(other)] <= cycle.saturating_sub(topo.latency_of(other, node))
}

/// The lowest node that a sample of node `node` in this cycle has to wait for.
pub fn first_behind(topo: &Topo, clocks: &[u64], node: u8, cycle: u64) -> Option<u8>
    requires { length clocks.now ≡ topo.now.nodes }
    ensures first { MatchOption result (NoneBehind topo.now clocks.now node cycle) (IsFirstBehind topo.now clocks.now node cycle) }
    ensures inside { IfSome result (λ k. k < topo.now.nodes) }
{
    for other in 0..topo.nodes() {
        if is_behind(topo, clocks, node, cycle, other) {
            return Some(other);
        }
    }
    None
}
