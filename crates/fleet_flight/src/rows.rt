// The rows of an epoch.
ghost use Rattle.std.specs.Prelude.{◌≡◌, ◌≤◌, ◌<◌, ◌++◌, ℕ, true, false, length, [], ◌∷◌, IfOk, OnOk, if◌then◌else◌};
ghost use Rattle.std.specs.List.{All};
ghost use Rattle.air_base.specs.Each.{each_below};
ghost use Rattle.air_base.specs.NodeRun.{Timed};
ghost use Rattle.node_core.specs.Cycle.{end_row};
ghost use Rattle.node_core.specs.State.{NodeState};
ghost use Rattle.node_core.specs.declared.row.Row.{Row};
ghost use Rattle.fleet_flight.specs.Origin.{flown};
ghost use Rattle.fleet_flight.specs.Paused.{AreTaken, IsPaused, ends_of, node_in, rows_of};
ghost use Rattle.fleet_flight.specs.Rows.{rows_upto};

use crate::Begins;
use crate::flight::run_to;
use crate::order::{put_behind, sort};
use avr_base::NoMemory;
use node_core::{Node, Row};
use std::alloc::{AllocError, Global};
use world_core::SendLog;

// The rows of one node after another; they are taken from the nodes.
fn gather(alloc: Global, nodes: &mut Vec<Node>) -> Result<Vec<Row>, AllocError>
    requires { All (λ v. v.asking ≡ false) nodes.old.items }
    ensures rows { IfOk result (λ rows. (d : Timed NodeState Row) → rows.items ≡ rows_of (length nodes.old.items) nodes.old.items d) }
    ensures taken { OnOk result (AreTaken nodes.old.items nodes.new.items) }
{
    let mut rows = Vec::new(alloc);
    for k in 0..nodes.len() {
        put_behind(&mut rows, nodes[k].take_rows())?;
    }
    Ok(rows)
}

/// The rows of all nodes are taken from them, and dropped.
pub fn drop_rows(nodes: &mut Vec<Node>)
    requires { All (λ v. v.asking ≡ false) nodes.old.items }
    ensures { AreTaken nodes.old.items nodes.new.items }
{
    for k in 0..nodes.len() {
        let _ = nodes[k].take_rows();
    }
}

// The last row of each node, where the run up to the cycle `limit` is over.
fn ends(alloc: Global, nodes: &[Node], limit: u64, over: bool) -> Result<Vec<Row>, AllocError>
    ensures { IfOk result (λ rows. (d : Timed NodeState Row) → rows.items ≡ (if over then ends_of limit (length nodes.now) nodes.now d else [])) }
{
    let mut rows = Vec::new(alloc);
    if !over {
        return Ok(rows);
    }
    for k in 0..nodes.len() {
        rows.push(nodes[k].end_row(limit))?;
    }
    Ok(rows)
}

/// The rows of the cycles from `floor`, where all nodes stand, and below `end`: cycle by cycle and in a cycle node by node,
/// with the last row of each node where the end is the limit. They are taken from the nodes.
pub fn rows_to<B: Begins>(
    alloc: Global,
    from: &B,
    nodes: &mut Vec<Node>,
    log: &mut SendLog,
    floor: u64,
    end: u64,
) -> Result<Vec<Row>, NoMemory>
    requires paused { IsPaused (flown (B.origin from.now)) floor floor nodes.old.items log.old.sends }
    requires more { floor < end }
    requires end { end ≤ (B.origin from.now).topo.limit }
    ensures rows { IfOk result (λ v. rows_upto (flown (B.origin from.now)) end ≡ rows_upto (flown (B.origin from.now)) floor ++ v.items) }
    ensures paused { OnOk result (IsPaused (flown (B.origin from.now)) end end nodes.new.items log.new.sends) }
{
    run_to(alloc, from, nodes, log, floor, end, end)?;
    let limit = from.topo().limit();
    let last = ends(alloc, nodes, limit, end == limit)?;
    let mut rows = gather(alloc, nodes)?;
    sort(&mut rows)?;
    rows.extend_from_slice(&last)?;
    Ok(rows)
}

/// Passes over the cycles from `floor`, where all nodes stand, and below `end`: as [`rows_to`] does, but the rows are
/// dropped where they are, neither gathered nor sorted.
pub fn pass_to<B: Begins>(
    alloc: Global,
    from: &B,
    nodes: &mut Vec<Node>,
    log: &mut SendLog,
    floor: u64,
    end: u64,
) -> Result<(), NoMemory>
    requires paused { IsPaused (flown (B.origin from.now)) floor floor nodes.old.items log.old.sends }
    requires more { floor ≤ end }
    requires end { end ≤ (B.origin from.now).topo.limit }
    ensures { OnOk result (IsPaused (flown (B.origin from.now)) end end nodes.new.items log.new.sends) }
{
    run_to(alloc, from, nodes, log, floor, end, end)?;
    drop_rows(nodes);
    Ok(())
}
