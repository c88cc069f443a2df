// The record between two sessions.
ghost use Rattle.std.specs.Prelude.{◌≡◌, ◌≤◌, ◌++◌, ℕ, List};
ghost use Rattle.world_core.specs.Kept.{IsPostedTo};
ghost use Rattle.neighbour_sync.specs.Loads.{AreReached};
ghost use Rattle.neighbour_sync.specs.Record.{with_loads, cut_at};

use crate::{Air, Clocks};
use crossbeam_utils::Backoff;
use std::sync::Wait;
use world_core::World;

/// Raises the floor of a record that is under no lock to this cycle, as soon as the clock of each node has come to it.
/// The sends that are over there, which nobody can hear any more, are gone, and the samples below it. It takes no
/// memory.
pub fn cut_when_passed<W: World, R: Wait>(rt: &R, clocks: &Clocks<W>, air: &mut Air, floor: u64)
    requires table { air.old.table ≡ clocks.now.table }
    requires rises { air.old.floor ≤ floor }
    requires within { floor ≤ air.old.world.topo.limit }
    ensures same { (air.new.table ≡ air.old.table) × (air.new.world ≡ air.old.world) }
    ensures posted { IsPostedTo air.old.world floor air.old.sent }
    ensures cut { (waits : List (ℕ × ℕ)) × (last : List (ℕ × ℕ)) × AreReached air.old.world.topo.nodes floor last × (air.new ≡ cut_at (with_loads air.old (waits ++ last)) floor) }
{
    let backoff = Backoff::new();
    for _ in rt.forever() {
        match air.cut(clocks, floor) {
            Ok(()) => return,
            Err(_) => backoff.snooze(),
        }
    }
    unreachable!()
}
