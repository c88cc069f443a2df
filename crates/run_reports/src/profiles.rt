// The profiles of all nodes.
ghost use Rattle.std.specs.Prelude.{◌≡◌, ◌≤◌, ◌++◌, ◌∷◌, [], ℕ, List, IfOk, OnOk};
ghost use Rattle.node_core.specs.declared.row.Row.{Row};
ghost use Rattle.node_runner.specs.Scenario.{fleet_of};
ghost use Rattle.run_reports.specs.Profiles.{profiles_text, window_of};
ghost use Rattle.run_reports.specs.Tallies.{tallies};
ghost use Rattle.world_core.specs.Order.{run_rows};

use crate::profile_lines::put_profile;
use avr_base::NoMemory;
use node_core::Row;
use node_monitors::Tally;
use node_runner::Scenario;
use std::alloc::{AllocError, Global};

/// A tally of each node of a network over its window, in order of number. No row was taken.
pub fn tally_all(alloc: Global, network: &Scenario) -> Result<Vec<Tally>, AllocError>
    ensures { IfOk result (λ all. all.items ≡ tallies network.now.topo.nodes (window_of network.now) []) }
{
    let window = network.window();
    let mut all = Vec::new(alloc);
    for node in 0..network.lawful_topo().nodes() {
        all.push(Tally::new(alloc, node, window))?;
    }
    Ok(all)
}

// The next row of a run goes to its node's tally.
fn tally_row(row: &Row, all: &mut Vec<Tally>) -> Result<(), AllocError>
    ensures { (nodes : ℕ) (window : ℕ × ℕ) (before : List Row) → all.old.items ≡ tallies nodes window before → OnOk result (all.new.items ≡ tallies nodes window (before ++ row.now ∷ [])) }
{
    let number = usize::from(row.node);
    if number < all.len() {
        all[number].take(row)?;
    }
    Ok(())
}

/// The next rows of a run go to the tallies of their nodes.
pub fn tally_rows(rows: &[Row], all: &mut Vec<Tally>) -> Result<(), AllocError>
    ensures { (nodes : ℕ) (window : ℕ × ℕ) (before : List Row) → all.old.items ≡ tallies nodes window before → OnOk result (all.new.items ≡ tallies nodes window (before ++ rows.now)) }
{
    for row in rows {
        tally_row(row, all)?;
    }
    Ok(())
}

/// No more rows come: the profile of each node of a network over its window, which lies within its run, node after node.
/// `Err` only for want of memory.
pub fn profiles_of(alloc: Global, network: &Scenario, all: Vec<Tally>) -> Result<Vec<u8>, NoMemory>
    requires within { network.now.to ≤ network.now.topo.limit }
    requires taken { all.items ≡ tallies network.now.topo.nodes (window_of network.now) (run_rows (fleet_of network.now)) }
    ensures { IfOk result (λ text. text.items ≡ profiles_text network.now) }
{
    let _lawful = network.lawful_topo();
    let mut text = Vec::new(alloc);
    for tally in all {
        let node = tally.node();
        let profile = tally.profile(alloc)?;
        put_profile(node, &profile, &mut text)?;
    }
    Ok(text)
}
