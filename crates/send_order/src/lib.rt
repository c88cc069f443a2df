//! The sends of a run in order of cycle, then node, as a run makes them and a state has them.
#![tactic(auto)]

ghost use Rattle.std.specs.Prelude.{IfOk, OnOk};
ghost use Rattle.std.specs.List.Sorted.{IsNonDecreasingBy, IsStableByKey};
ghost use Rattle.std.specs.Ordering.{nat_cmp};
ghost use Rattle.send_order.specs.Order.{AreOrdered};

use air_base::Send;
use std::alloc::{AllocError, Global};

// In order of node; those of one node stay in their order.
fn sort_by_node(sends: &mut Vec<Send>) -> Result<(), AllocError>
    ensures sorted { OnOk result (IsNonDecreasingBy (λ x. x.node) sends.new.items) }
    ensures stable { OnOk result (IsStableByKey (λ x. x.node) nat_cmp sends.old.items sends.new.items) }
{
    sends.sort_by_key(|send| send.node)?;
    Ok(())
}

// In order of cycle; those of one cycle stay in their order.
fn sort_by_cycle(sends: &mut Vec<Send>) -> Result<(), AllocError>
    ensures sorted { OnOk result (IsNonDecreasingBy (λ x. x.cycle) sends.new.items) }
    ensures stable { OnOk result (IsStableByKey (λ x. x.cycle) nat_cmp sends.old.items sends.new.items) }
{
    sends.sort_by_key(|send| send.cycle)?;
    Ok(())
}

/// These sends in order of cycle, then node; what a node sent stays in its order. `Err` only for want of memory.
pub fn ordered(alloc: Global, sends: &[Send]) -> Result<Vec<Send>, AllocError>
    ensures { IfOk result (λ v. AreOrdered sends.now v.items) }
{
    let mut ordered = Vec::from_slice(alloc, sends)?;
    sort_by_node(&mut ordered)?;
    sort_by_cycle(&mut ordered)?;
    Ok(ordered)
}
