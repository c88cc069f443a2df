// What the rows of one word of flash come to, and a table of all words.
ghost use Rattle.std.specs.Prelude.{◌≡◌, ◌+◌, ◌^◌, ◌<◌, ◌≤◌, IfOk, length, slice_index_or, slice_set};
ghost use Rattle.std.specs.List.{filter};
ghost use Rattle.node_monitors.specs.Spent.{is_used, more, table, unused};

use std::alloc::{AllocError, Global};

/// The units of charge for a cycle awake; a cycle of sleep is one.
pub const AWAKE_CHARGE: u64 = 8;

/// The units of charge for a byte sent.
pub const SENT_CHARGE: u64 = 512;

/// What was spent at one word of flash.
#[derive(Clone, Copy)]
pub struct Spent {
    /// The address of the word.
    pub word: u16,
    /// How often it was executed, or entered as a vector.
    pub count: u64,
    /// The cycles of the window that it had.
    pub cycles: u64,
}

/// A table of the words below `words`, at none of which anything was spent.
pub fn unused_table(alloc: Global, words: usize) -> Result<Vec<Spent>, AllocError>
    requires { words ≤ 65536 }
    ensures { IfOk result (λ v. v.items ≡ table words unused) }
{
    let mut slots = Vec::with_capacity(alloc, words)?;
    for word in 0..words {
        slots.push(Spent {
            word: word as u16,
            count: 0,
            cycles: 0,
        })?;
    }
    Ok(slots)
}

/// One row more at a word, and its cycles.
pub fn add(slots: &mut [Spent], word: u16, cycles: u64)
    requires within { word < length slots.old }
    requires count { (slice_index_or slots.old word (unused word)).count + 1 < 2 ^ 64 }
    requires cycles { (slice_index_or slots.old word (unused word)).cycles + cycles < 2 ^ 64 }
    ensures { slots.new ≡ slice_set slots.old word (more cycles (slice_index_or slots.old word (unused word))) }
{
    let slot = &mut slots[usize::from(word)];
    slot.count += 1;
    slot.cycles += cycles;
}

/// The words at which something was spent, in rising order.
pub fn used(alloc: Global, slots: &[Spent]) -> Result<Vec<Spent>, AllocError>
    ensures { IfOk result (λ v. v.items ≡ filter is_used slots.now) }
{
    slots
        .iter()
        .filter(|slot| slot.count > 0)
        .copied()
        .collect(alloc)
}
