// The rows that a profile needs.
ghost use Rattle.std.specs.Prelude.{◌≡◌, ℕ, Bool, true, List};
ghost use Rattle.std.specs.List.{All, filter};
ghost use Rattle.node_core.specs.declared.row.Row.{Row};
ghost use Rattle.node_monitors.specs.Account.{account};
ghost use Rattle.node_monitors.specs.Matters.{IsBelow, matters};

use node_core::{Kind, Row};

/// Whether a profile over a window, from `window.0` on and below `window.1`, needs this row.
pub fn matters(row: &Row, window: (u64, u64)) -> bool
    ensures { result ≡ matters window row.now }
{
    let counts = match row.kind {
        Kind::Instr { .. } | Kind::Enter { .. } | Kind::Stop { .. } => true,
        Kind::Sent { .. } => window.0 <= row.cycle,
        Kind::Serial { .. } | Kind::Heard { .. } | Kind::End { .. } => false,
    };
    counts & (row.cycle < window.1)
}

/// What a caller can leave out. Where the instructions and entries of interrupts lie below the window's end, as they do
/// in a trace with that window, the rows that matter give the same account; and so do, in any list, the rows of the
/// node.
pub fn matters_law()
    ensures matters { (node : ℕ) (window : ℕ × ℕ) (rows : List Row) → All (IsBelow window.1) rows → account node window (filter (matters window) rows) ≡ account node window rows }
    ensures own { (node : ℕ) (window : ℕ × ℕ) (p : Row → Bool) (rows : List Row) → ((r : Row) → r.node ≡ node → p r ≡ true) → account node window (filter p rows) ≡ account node window rows }
{}
