// Rows, where there is room for them.
ghost use Rattle.std.specs.Prelude.{◌≡◌, ◌<◌, ◌≤◌, ◌+◌, ◌%◌, ◌++◌, ◌&&◌, nat_le, nat_lt, if◌then◌else◌, [], ◌∷◌, vec_len, vec_capacity};
ghost use Rattle.ihex_loader.specs.Flash.{word_at};
ghost use Rattle.node_core.specs.declared.row.Kind.TheVariants as kind;

use crate::{Kind, Row};
use avr_program::Program;

/// Adds a row, for which there is room.
pub fn put_row(rows: &mut Vec<Row>, row: Row)
    requires { vec_len rows.old < vec_capacity rows.old }
    ensures items { rows.new.items ≡ rows.old.items ++ row ∷ [] }
    ensures len { vec_len rows.new ≡ vec_len rows.old + 1 }
    ensures room { vec_capacity rows.new ≡ vec_capacity rows.old }
{
    rows.push_reserved(row);
}

/// Adds a row where it is to be told. There is room for it.
pub fn tell(rows: &mut Vec<Row>, told: bool, row: Row)
    requires { vec_len rows.old < vec_capacity rows.old }
    ensures items { rows.new.items ≡ rows.old.items ++ (if told then row ∷ [] else []) }
    ensures len { vec_len rows.new ≤ vec_len rows.old + 1 }
    ensures room { vec_capacity rows.new ≡ vec_capacity rows.old }
{
    if told {
        put_row(rows, row);
    }
}

/// Adds the row of the instruction at the word address `pc`, where it is to be told: its words are read only then.
/// There is room for it.
#[inline]
pub fn tell_instruction(
    rows: &mut Vec<Row>,
    told: bool,
    program: &Program,
    pc: u16,
    cycle: u64,
    node: u8,
)
    requires { vec_len rows.old < vec_capacity rows.old }
    ensures items { rows.new.items ≡ rows.old.items ++ (if told then (record { cycle = cycle; node = node; kind = kind.Instr pc (word_at program.now.bytes pc) (word_at program.now.bytes ((pc + 1) % 65536)) }) ∷ [] else []) }
    ensures len { vec_len rows.new ≤ vec_len rows.old + 1 }
    ensures room { vec_capacity rows.new ≡ vec_capacity rows.old }
{
    if told {
        let word = program.word(pc);
        let next = program.word(pc.wrapping_add(1));
        let kind = Kind::Instr { pc, word, next };
        put_row(rows, Row { cycle, node, kind });
    }
}

/// Whether a cycle lies in the window from the cycle `from` on and below `to`. Most cycles lie behind it, so that end
/// is asked first.
pub fn is_within(from: u64, to: u64, cycle: u64) -> bool
    ensures { result ≡ (nat_le from cycle && nat_lt cycle to) }
{
    cycle < to && from <= cycle
}
