// What follows from the definitions alone.
ghost use Rattle.std.specs.Prelude.{◌≡◌, ℕ, ◌-◌, ◌^◌, ◌<◌, ◌≤◌, List, length};
ghost use Rattle.std.specs.List.{All};
ghost use Rattle.std.specs.List.Sorted.{IsNonDecreasingBy};
ghost use Rattle.node_core.specs.declared.row.Row.{Row};
ghost use Rattle.node_monitors.specs.Account.{account, whole};
ghost use Rattle.node_monitors.specs.Matters.{IsBelow};
ghost use Rattle.node_monitors.specs.Taken.{IsWithin};
ghost use Rattle.node_monitors.specs.Tally.{ended, tallied_all, told, untallied};

/// The parts of an account are the window: each of its cycles is of the lead, of sleep, after the stop, or stands at one
/// instruction or one vector. It holds for all rows of words of flash, in any order.
pub fn whole_law()
    ensures { (node : ℕ) (window : ℕ × ℕ) (rows : List Row) → All (λ r. IsWithin 65536 r.kind) rows → whole (account node window rows) ≡ window.1 - window.0 }
{}

/// Of rows that come in order of cycle a tally gives the account, where the instructions and entries of interrupts lie
/// below the window's end, and the numbers and the words are as many as fit, as they do in each call of `Tally::profile`.
pub fn tally_law()
    ensures { (node : ℕ) (window : ℕ × ℕ) (rows : List Row) → length rows < 2 ^ 64 - 1 → window.1 < 2 ^ 64 → IsNonDecreasingBy (λ r. r.cycle) rows → All (IsBelow window.1) rows
        → length (ended (tallied_all rows (untallied node window))).at ≤ 65536 → length (ended (tallied_all rows (untallied node window))).entered ≤ 65536
        → told (ended (tallied_all rows (untallied node window))) ≡ account node window rows }
{}
