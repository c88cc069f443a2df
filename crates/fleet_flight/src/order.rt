// The rows of all nodes in order.
ghost use Rattle.std.specs.Prelude.{◌≡◌, ◌++◌, OnOk};
ghost use Rattle.std.specs.List.Sorted.{IsNonDecreasingBy, IsStableByKey};
ghost use Rattle.std.specs.Ordering.{nat_cmp};

use node_core::Row;
use std::alloc::AllocError;

/// Puts rows behind those that are there. Where there are none yet, they are taken over as they stand, without a copy of
/// what may be a megabyte.
pub fn put_behind(rows: &mut Vec<Row>, more: Vec<Row>) -> Result<(), AllocError>
    ensures { OnOk result (rows.new.items ≡ rows.old.items ++ more.items) }
{
    if rows.is_empty() {
        *rows = more;
        return Ok(());
    }
    let mut more = more;
    rows.append(&mut more)
}

/// In order of cycle; rows of one cycle stay in their order, which is that of the nodes.
pub fn sort(rows: &mut Vec<Row>) -> Result<(), AllocError>
    ensures sorted { OnOk result (IsNonDecreasingBy (λ r. r.cycle) rows.new.items) }
    ensures stable { OnOk result (IsStableByKey (λ r. r.cycle) nat_cmp rows.old.items rows.new.items) }
{
    rows.sort_by_key(|r| r.cycle)?;
    Ok(())
}
