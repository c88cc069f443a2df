// The rules of the tables: of one, of all of a kind, and of a document with all that it holds. Each test is made, by
// `&` and not `&&`: none needs the answer of another, and a way round a test costs more to prove than the test.
ghost use Rattle.std.specs.Prelude.{◌≡◌, map};
ghost use Rattle.toml.specs.View.{view, table_view};
ghost use Rattle.scenario_file.specs.Document.{at_key};
ghost use Rattle.scenario_file.specs.Rules.{lacks_key, has_kinds, has_top_ranges, has_ranges};
ghost use Rattle.scenario_file.specs.Faults.{has_unknown_key, are_rows, right_kinds};
ghost use Rattle.scenario_file.specs.Holds.{holds, holds_of, holds_of_all, holds_in};

use crate::asked::{Asked, passes_at};
use crate::document::{elements, has_key, member, number_at};
use crate::keys::{Keys, Version, is_known, most_cycles};
use air_base::{LAST_CYCLE, LONGEST_BYTE, LONGEST_LATENCY, SHORTEST_BYTE};
use serial_ports::LONGEST_EVERY;
use toml::{Table, Value};

fn has_unknown_key(version: Version, keys: Keys, table: &Table) -> bool
    ensures { result ≡ has_unknown_key version keys (table_view table.now) }
{
    table
        .keys()
        .any(|key| !is_known(version, keys, key.as_str()))
}

fn lacks_key(keys: Keys, table: &Table) -> bool
    ensures { result ≡ lacks_key keys (table_view table.now) }
{
    match keys {
        Keys::Top => !has_key(table, "cycles"),
        Keys::OfNode => !has_key(table, "image"),
        Keys::OfLink => !has_key(table, "from") | !has_key(table, "to"),
        Keys::OfInput => !has_key(table, "node") | !has_key(table, "at") | !has_key(table, "hex"),
    }
}

fn has_kinds(keys: Keys, table: &Table) -> bool
    ensures { result ≡ has_kinds keys (table_view table.now) }
{
    match keys {
        Keys::Top => {
            passes_at(table, "version", Asked::Whole)
                & passes_at(table, "cycles", Asked::Whole)
                & passes_at(table, "latency", Asked::Whole)
                & passes_at(table, "byte_time", Asked::Whole)
                & passes_at(table, "window", Asked::Two)
        }
        Keys::OfNode => passes_at(table, "image", Asked::Text),
        Keys::OfLink => {
            passes_at(table, "from", Asked::Whole)
                & passes_at(table, "to", Asked::Whole)
                & passes_at(table, "latency", Asked::Whole)
                & passes_at(table, "open", Asked::Twos)
        }
        Keys::OfInput => {
            passes_at(table, "node", Asked::Whole)
                & passes_at(table, "at", Asked::Whole)
                & passes_at(table, "every", Asked::Whole)
                & passes_at(table, "hex", Asked::Text)
        }
    }
}

#[tactic(auto, unfolding(crate::specs::Rules::has_window))]
fn has_top_ranges(version: Version, table: &Table) -> bool
    ensures { result ≡ has_top_ranges version (table_view table.now) }
{
    let cycles = number_at(table, "cycles", 0);
    passes_at(table, "version", Asked::Between(1, 3))
        & passes_at(table, "cycles", Asked::Between(1, most_cycles(version)))
        & passes_at(table, "latency", Asked::Between(1, LONGEST_LATENCY))
        & passes_at(
            table,
            "byte_time",
            Asked::Between(SHORTEST_BYTE, LONGEST_BYTE),
        )
        & passes_at(table, "window", Asked::Window(cycles))
}

fn has_ranges(version: Version, count: u64, keys: Keys, table: &Table) -> bool
    ensures { result ≡ has_ranges version count keys (table_view table.now) }
{
    match keys {
        Keys::Top => has_top_ranges(version, table),
        Keys::OfNode => passes_at(table, "image", Asked::Name),
        Keys::OfLink => {
            passes_at(table, "from", Asked::Node(count))
                & passes_at(table, "to", Asked::Node(count))
                & passes_at(table, "latency", Asked::Between(1, LONGEST_LATENCY))
                & passes_at(table, "open", Asked::Spans)
        }
        Keys::OfInput => {
            passes_at(table, "node", Asked::Node(count))
                & passes_at(table, "at", Asked::Between(0, LAST_CYCLE))
                & passes_at(table, "every", Asked::Between(1, LONGEST_EVERY))
                & passes_at(table, "hex", Asked::Hex)
        }
    }
}

/// A rule of all tables, the top one and those of each kind.
#[derive(Clone, Copy)]
pub enum Rule {
    /// A table has no key but those that it may have in this version.
    NoOtherKey(Version),
    /// A table has each key that it must have.
    Complete,
    /// Each value is of the kind that its key asks.
    RightKinds,
    /// Each number and each size is in its range, in a text of this version and of so many nodes.
    InRange(Version, u64),
}

impl Rule {
    fn holds(self, keys: Keys, table: &Table) -> bool
        ensures { result ≡ holds self keys (table_view table.now) }
    {
        match self {
            Rule::NoOtherKey(version) => !has_unknown_key(version, keys, table),
            Rule::Complete => !lacks_key(keys, table),
            Rule::RightKinds => has_kinds(keys, table),
            Rule::InRange(version, count) => has_ranges(version, count, keys, table),
        }
    }

    // What is no table has no keys, and is told by the kinds.
    fn holds_of(self, keys: Keys, value: &Value) -> bool
        ensures { result ≡ holds_of self keys (view value.now) }
    {
        match value.as_table() {
            Some(table) => self.holds(keys, table),
            None => matches!(self, Rule::NoOtherKey(_) | Rule::Complete),
        }
    }

    fn holds_of_all(self, keys: Keys, values: &[Value]) -> bool
        ensures { result ≡ holds_of_all self keys (map view values.now) }
    {
        values.iter().all(|value| self.holds_of(keys, value))
    }

    /// Whether the rule holds of a document and of the tables in its arrays.
    #[tactic(auto, unfolding(crate::specs::Holds::holds_in))]
    pub fn holds_in(self, table: &Table) -> bool
        ensures { result ≡ holds_in self (table_view table.now) }
    {
        self.holds(Keys::Top, table)
            & self.holds_of_all(Keys::OfNode, elements(table, "node"))
            & self.holds_of_all(Keys::OfLink, elements(table, "link"))
            & self.holds_of_all(Keys::OfInput, elements(table, "input"))
    }
}

// Whether an array of tables of this kind stands at a key, or nothing.
fn are_rows_at(keys: Keys, table: &Table, key: &str) -> bool
    ensures { result ≡ at_key (are_rows keys) key.now (table_view table.now) }
{
    match member(table, key) {
        None => true,
        Some(value) => match value.as_array() {
            Some(values) => Rule::RightKinds.holds_of_all(keys, values.as_slice()),
            None => false,
        },
    }
}

/// Whether each value is of the kind that its key asks.
#[tactic(auto, unfolding(crate::specs::Faults::right_kinds))]
pub fn right_kinds(table: &Table) -> bool
    ensures { result ≡ right_kinds (table_view table.now) }
{
    has_kinds(Keys::Top, table)
        & are_rows_at(Keys::OfNode, table, "node")
        & are_rows_at(Keys::OfLink, table, "link")
        & are_rows_at(Keys::OfInput, table, "input")
}
