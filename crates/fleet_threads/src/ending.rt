// What is done with the nodes when all threads of an epoch are joined.
ghost use Rattle.std.specs.Prelude.{◌≡◌, ◌≤◌, ◌<◌, ◌++◌, ◌==◌, map, true, false, IfOk, OnOk};
ghost use Rattle.std.specs.List.{All, flat_map};
ghost use Rattle.node_runner.specs.Scenario.{fleet_of, IsScenario};
ghost use Rattle.fleet_flight.specs.Rows.{rows_upto};
ghost use Rattle.fleet_threads.specs.Member.{AreAtEnd};
ghost use Rattle.fleet_threads.specs.Ending.{rows_at, taken_at, end_row_at, HasEndedAt, IsCalm};

use crate::member::Member;
use avr_base::NoMemory;
use fleet_flight::{put_behind, sort};
use node_core::Row;
use node_runner::Scenario;
use std::alloc::{AllocError, Global};

/// Whether a node has halted.
pub fn any_halted(members: &[Member]) -> bool
    ensures { result ≡ false → All (λ m. m.halted ≡ false) members.now }
{
    for member in members {
        if member.halted {
            return true;
        }
    }
    false
}

// Adds the last rows, in order of number.
fn add_ends(members: &[Member], rows: &mut Vec<Row>) -> Result<(), AllocError>
    requires { All HasEndedAt members.now }
    ensures { OnOk result (rows.new.items ≡ rows.old.items ++ map end_row_at members.now) }
{
    for member in members {
        rows.push(member.runner.end_row())?;
    }
    Ok(())
}

// The rows of one node after another; they are taken from the runners.
fn gather(alloc: Global, members: &mut Vec<Member>) -> Result<Vec<Row>, AllocError>
    requires { All IsCalm members.old.items }
    ensures rows { IfOk result (λ v. v.items ≡ flat_map rows_at members.old.items) }
    ensures left { OnOk result (members.new.items ≡ map taken_at members.old.items) }
{
    let mut rows = Vec::new(alloc);
    for member in members.iter_mut() {
        put_behind(&mut rows, member.runner.take_rows())?;
    }
    Ok(rows)
}

/// The rows of the epoch from `floor` to `end` in the single global order, with the last row of each node where the end
/// is the limit. They are taken from the runners.
pub fn epoch_rows(
    alloc: Global,
    scenario: &Scenario,
    floor: u64,
    end: u64,
    members: &mut Vec<Member>,
) -> Result<Vec<Row>, NoMemory>
    requires sound { IsScenario scenario.now }
    requires end { end ≤ scenario.now.topo.limit }
    requires floor { floor < end }
    requires members { AreAtEnd scenario.now floor end members.old.items }
    ensures rows { IfOk result (λ v. rows_upto (fleet_of scenario.now) end ≡ rows_upto (fleet_of scenario.now) floor ++ v.items) }
    ensures left { OnOk result (members.new.items ≡ map taken_at members.old.items) }
{
    // Only the contract names it.
    let _ = floor;
    let mut rows = gather(alloc, members)?;
    sort(&mut rows)?;
    if end == scenario.lawful_topo().limit() {
        add_ends(members, &mut rows)?;
    }
    Ok(rows)
}
