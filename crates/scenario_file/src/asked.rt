// What is asked of the value at a key.
ghost use Rattle.std.specs.Prelude.{◌≡◌};
ghost use Rattle.toml.specs.View.{view, table_view};
ghost use Rattle.scenario_file.specs.Document.{at_key};
ghost use Rattle.scenario_file.specs.Rules.{passes};

use crate::document::member;
use crate::kinds::{is_array_of_two, is_two};
use crate::ranges::{fits, is_array_of_spans, is_hex, is_name, is_node, is_window};
use toml::{Table, Value};

/// What is asked of a value, where one stands at its key: first a kind, and later a range, which a value of another
/// kind passes.
#[derive(Clone, Copy)]
pub enum Asked {
    /// A whole number.
    Whole,
    /// A text.
    Text,
    /// An array of two whole numbers.
    Two,
    /// An array of arrays of two whole numbers.
    Twos,
    /// From the first of these numbers to the second.
    Between(u64, u64),
    /// The number of one of so many nodes.
    Node(u64),
    /// The name of a file.
    Name,
    /// Hexadecimal digits, two for each byte.
    Hex,
    /// A window of a run of so many cycles.
    Window(u64),
    /// Spans, one behind the other.
    Spans,
}

fn passes(asked: Asked, value: &Value) -> bool
    ensures { result ≡ passes asked (view value.now) }
{
    match asked {
        Asked::Whole => value.is_integer(),
        Asked::Text => value.is_str(),
        Asked::Two => is_two(value),
        Asked::Twos => is_array_of_two(value),
        Asked::Between(least, most) => fits(least, most, value),
        Asked::Node(count) => is_node(count, value),
        Asked::Name => is_name(value),
        Asked::Hex => is_hex(value),
        Asked::Window(cycles) => is_window(cycles, value),
        Asked::Spans => is_array_of_spans(value),
    }
}

/// Whether the value at a key is as asked, or none stands there.
pub fn passes_at(table: &Table, key: &str, asked: Asked) -> bool
    ensures { result ≡ at_key (passes asked) key.now (table_view table.now) }
{
    match member(table, key) {
        None => true,
        Some(value) => passes(asked, value),
    }
}
