// How far the nodes are, by their clock words.
ghost use Rattle.std.specs.Prelude.{◌≡◌, ◌<◌, ◌∷◌, ◌++◌, [], ℕ, List, IfSome, IfNone};
ghost use Rattle.world_core.specs.Posted.{AllPostedFor};
ghost use Rattle.world_core.specs.Kept.{IsPostedTo};
ghost use Rattle.world_core.specs.Lawful.{IsLawful};
ghost use Rattle.neighbour_sync.specs.Seats.{air_loaded};
ghost use Rattle.neighbour_sync.specs.Loads.{looked, pair_of, IsReached, IsBehind, AreReached};
ghost use Rattle.neighbour_sync.specs.Looks.{IsSeenPast, AreSeenPast};

use crate::{AirSeat, Behind, Clocks};
use world_core::{Topo, World};

// The clock of node `from` where node `node` may hear it in this cycle, and it is not far enough.
fn late_clock<W: World>(
    clocks: &Clocks<W>,
    seat: &mut AirSeat,
    topo: &Topo,
    node: u8,
    cycle: u64,
    from: u8,
) -> Option<u64>
    requires table { seat.old.table ≡ clocks.now.table }
    requires topo { topo.now ≡ seat.old.world.topo }
    requires node { from < topo.now.nodes }
    ensures none { IfNone result (IsReached seat.old.world seat.old.sent node cycle from) }
    ensures looks { IfNone result ((more : List (ℕ × ℕ)) × (seat.new ≡ looked seat.old more) × IsSeenPast seat.old.world node cycle more from) }
    ensures some { IfSome result (λ c. IsBehind seat.old.world node cycle from c) }
    ensures load { IfSome result (λ c. seat.new ≡ air_loaded seat.old from c) }
{
    if !topo.needs(from, node, cycle) {
        return None;
    }
    let clock = clocks.load_clock(seat, from);
    if clock <= cycle.saturating_sub(topo.latency_of(from, node)) {
        Some(clock)
    } else {
        None
    }
}

/// The first node that node `node` may hear in this cycle and that is not far enough, as its clock was loaded last.
/// Where there is none, a clock of each that may be heard was loaded that is past what may be heard of it.
pub fn first_behind<W: World>(
    clocks: &Clocks<W>,
    seat: &mut AirSeat,
    topo: &Topo,
    node: u8,
    cycle: u64,
) -> Option<Behind>
    requires table { seat.old.table ≡ clocks.now.table }
    requires topo { topo.now ≡ seat.old.world.topo }
    requires lawful { IsLawful seat.old.world }
    ensures none { IfNone result (AllPostedFor seat.old.world seat.old.sent node cycle) }
    ensures looks { IfNone result ((more : List (ℕ × ℕ)) × (seat.new ≡ looked seat.old more) × AreSeenPast seat.old.world node cycle more) }
    ensures some { IfSome result (λ b. IsBehind seat.old.world node cycle b.node b.clock) }
    ensures load { IfSome result (λ b. (more : List (ℕ × ℕ)) × (seat.new ≡ looked seat.old (more ++ pair_of b ∷ []))) }
{
    for from in topo.neighbours(node) {
        if let Some(clock) = late_clock(clocks, seat, topo, node, cycle, *from) {
            return Some(Behind { node: *from, clock });
        }
    }
    None
}

/// The first node whose clock is below this cycle, as it was loaded last. Where there is none, all clocks were loaded,
/// in the order of the nodes.
pub fn first_below<W: World>(
    clocks: &Clocks<W>,
    seat: &mut AirSeat,
    topo: &Topo,
    floor: u64,
) -> Option<Behind>
    requires table { seat.old.table ≡ clocks.now.table }
    requires topo { topo.now ≡ seat.old.world.topo }
    requires lawful { IsLawful seat.old.world }
    ensures none { IfNone result (IsPostedTo seat.old.world floor seat.old.sent) }
    ensures looks { IfNone result ((more : List (ℕ × ℕ)) × AreReached topo.now.nodes floor more × (seat.new ≡ looked seat.old more)) }
    ensures some { IfSome result (λ b. b.clock < floor) }
    ensures load { IfSome result (λ b. (more : List (ℕ × ℕ)) × (seat.new ≡ looked seat.old (more ++ pair_of b ∷ []))) }
{
    for node in 0..topo.nodes() {
        let clock = clocks.load_clock(seat, node);
        if clock < floor {
            return Some(Behind { node, clock });
        }
    }
    None
}
