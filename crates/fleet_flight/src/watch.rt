// A run whose nodes are watched, piece by piece.
ghost use Rattle.std.specs.Prelude.{◌≡◌, ◌≤◌, ◌+◌, ◌-◌, IfOk, OnOk, slice_index_or, length};
ghost use Rattle.std.specs.List.{All};
ghost use Rattle.std.specs.List.Sorted.{IsNonDecreasingBy, IsStableByKey};
ghost use Rattle.std.specs.Ordering.{nat_cmp};
ghost use Rattle.air_base.specs.Each.{each_below};
ghost use Rattle.world_core.specs.Topology.{IsInside};
ghost use Rattle.fleet_flight.specs.Origin.{flown};
ghost use Rattle.fleet_flight.specs.Paused.{IsHeld, IsPaused};
ghost use Rattle.fleet_flight.specs.Shadows.{IsBehind, groups_of};
ghost use Rattle.fleet_flight.specs.Watched.{no_group, seen_in, watched};

use crate::flight::run_to;
use crate::rows::drop_rows;
use crate::shadow::follow;
use crate::{Begins, Shadow};
use avr_base::NoMemory;
use node_core::Node;
use node_places::Change;
use std::alloc::{AllocError, Global};
use world_core::SendLog;

// Runs all shadows from the cycle `floor` to the cycle `end`: what is seen of one behind what is seen of another.
fn follow_all<B: Begins>(
    alloc: Global,
    from: &B,
    log: &SendLog,
    shadows: &mut Vec<Shadow>,
    floor: u64,
    end: u64,
) -> Result<Vec<Change>, NoMemory>
    requires held { IsHeld (flown (B.origin from.now)) floor end log.now.sends }
    requires inside { All (λ x. IsInside (B.origin from.now).topo x.node x.cycle) log.now.sends }
    requires begun { (B.origin from.now).cycle ≤ floor }
    requires more { floor ≤ end }
    requires end { end ≤ (B.origin from.now).topo.limit }
    requires shadows { All (IsBehind (flown (B.origin from.now)) floor) shadows.old.items }
    ensures changes { IfOk result (λ v. v.items ≡ each_below (length (groups_of shadows.old.items)) (λ g. each_below (end - floor) (λ i. seen_in (flown (B.origin from.now)) (slice_index_or (groups_of shadows.old.items) g no_group) (floor + i)))) }
    ensures shadows { OnOk result (All (IsBehind (flown (B.origin from.now)) end) shadows.new.items) }
    ensures groups { OnOk result (groups_of shadows.new.items ≡ groups_of shadows.old.items) }
{
    let topo = from.topo();
    let mut changes = Vec::new(alloc);
    for k in 0..shadows.len() {
        follow(&mut shadows[k], topo, log, floor, end, &mut changes)?;
    }
    Ok(changes)
}

// In order of cycle; changes of one cycle stay in their order, which is that of the places.
fn sort(changes: &mut Vec<Change>) -> Result<(), AllocError>
    ensures sorted { OnOk result (IsNonDecreasingBy (λ c. c.cycle) changes.new.items) }
    ensures stable { OnOk result (IsStableByKey (λ c. c.cycle) nat_cmp changes.old.items changes.new.items) }
{
    changes.sort_by_key(|c| c.cycle)?;
    Ok(())
}

/// Passes over the cycles from `floor`, where all nodes and shadows stand, and below `end`: what is seen of the shadows in
/// these cycles, cycle by cycle, in a cycle shadow by shadow, and of one in the order of its places. The nodes' rows are
/// dropped.
pub fn watch_to<B: Begins>(
    alloc: Global,
    from: &B,
    nodes: &mut Vec<Node>,
    log: &mut SendLog,
    shadows: &mut Vec<Shadow>,
    floor: u64,
    end: u64,
) -> Result<Vec<Change>, NoMemory>
    requires paused { IsPaused (flown (B.origin from.now)) floor floor nodes.old.items log.old.sends }
    requires more { floor ≤ end }
    requires end { end ≤ (B.origin from.now).topo.limit }
    requires shadows { All (IsBehind (flown (B.origin from.now)) floor) shadows.old.items }
    ensures changes { IfOk result (λ v. v.items ≡ watched (flown (B.origin from.now)) (groups_of shadows.old.items) floor end) }
    ensures paused { OnOk result (IsPaused (flown (B.origin from.now)) end end nodes.new.items log.new.sends) }
    ensures shadows { OnOk result (All (IsBehind (flown (B.origin from.now)) end) shadows.new.items) }
    ensures groups { OnOk result (groups_of shadows.new.items ≡ groups_of shadows.old.items) }
{
    run_to(alloc, from, nodes, log, floor, end, floor)?;
    drop_rows(nodes);
    let mut changes = follow_all(alloc, from, log, shadows, floor, end)?;
    sort(&mut changes)?;
    Ok(changes)
}
