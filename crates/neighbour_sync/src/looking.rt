// A node's own look at the clocks of those that it hears.
ghost use Rattle.std.specs.Prelude.{◌≡◌, ◌<◌, ◌∷◌, ◌++◌, [], ℕ, List, IfSome, IfNone};
ghost use Rattle.std.specs.List.{All};
ghost use Rattle.world_core.specs.Topology.{neighbours};
ghost use Rattle.neighbour_sync.specs.Seats.{node_peeked};
ghost use Rattle.neighbour_sync.specs.Loads.{pair_of, IsBehind};
ghost use Rattle.neighbour_sync.specs.Looks.{peeked, IsSeenPast, AreSeenPast};

use crate::{Behind, Clocks, NodeSeat};
use world_core::{Topo, World};

// The clock of node `from` where the seat's node may hear it in this cycle, and it is not far enough.
fn late_clock<W: World>(
    clocks: &Clocks<W>,
    seat: &mut NodeSeat,
    topo: &Topo,
    cycle: u64,
    from: u8,
) -> Option<u64>
    requires table { seat.old.table ≡ clocks.now.table }
    requires topo { topo.now ≡ seat.old.world.topo }
    requires node { from < topo.now.nodes }
    ensures none { IfNone result ((more : List (ℕ × ℕ)) × (seat.new ≡ peeked seat.old more) × IsSeenPast seat.old.world seat.old.number cycle more from) }
    ensures some { IfSome result (λ c. IsBehind seat.old.world seat.old.number cycle from c) }
    ensures load { IfSome result (λ c. seat.new ≡ node_peeked seat.old from c) }
{
    let node = seat.number();
    if !topo.needs(from, node, cycle) {
        return None;
    }
    let clock = clocks.peek_clock(seat, from);
    if clock <= cycle.saturating_sub(topo.latency_of(from, node)) {
        Some(clock)
    } else {
        None
    }
}

/// The first node that the seat's node may hear in this cycle and that is not far enough, as its clock was seen last.
/// Where there is none, the clock of each that may be heard was seen to be past what may be heard of it.
pub fn first_behind<W: World>(
    clocks: &Clocks<W>,
    seat: &mut NodeSeat,
    topo: &Topo,
    cycle: u64,
) -> Option<Behind>
    requires table { seat.old.table ≡ clocks.now.table }
    requires topo { topo.now ≡ seat.old.world.topo }
    ensures none { IfNone result ((more : List (ℕ × ℕ)) × (seat.new ≡ peeked seat.old more) × AreSeenPast seat.old.world seat.old.number cycle more) }
    ensures some { IfSome result (λ b. IsBehind seat.old.world seat.old.number cycle b.node b.clock) }
    ensures load { IfSome result (λ b. (more : List (ℕ × ℕ)) × (seat.new ≡ peeked seat.old (more ++ pair_of b ∷ []))) }
{
    for from in topo.neighbours(seat.number()) {
        if let Some(clock) = late_clock(clocks, seat, topo, cycle, *from) {
            return Some(Behind { node: *from, clock });
        }
    }
    None
}
