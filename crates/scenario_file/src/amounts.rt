// What is bounded over a whole document.
ghost use Rattle.std.specs.Prelude.{◌≡◌, ◌/◌, map, length};
ghost use Rattle.toml.specs.View.{view, table_view};
ghost use Rattle.scenario_file.specs.Rules.{most_amount};
ghost use Rattle.scenario_file.specs.Faults.{amount_of, is_few, in_range};

use crate::document::{elements, elements_in, node_count, text_in};
use crate::keys::{Keys, Version};
use crate::rules::Rule;
use serial_ports::MOST_ARRIVALS;
use toml::{Table, Value};
use world_core::MOST_SPANS;

// What is counted of a table: the spans of a link, the bytes of an input's script.
#[tactic(auto, using(crate::proofs::Lists::length_map))]
fn amount_of(keys: Keys, value: &Value) -> u64
    ensures { result ≡ amount_of keys (view value.now) }
{
    match keys {
        Keys::Top | Keys::OfNode => 0,
        Keys::OfLink => elements_in(value, "open").len() as u64,
        Keys::OfInput => text_in(value, "hex").len() as u64 / 2,
    }
}

fn most_amount(keys: Keys) -> u64
    ensures { result ≡ most_amount keys }
{
    match keys {
        Keys::Top | Keys::OfNode => 0,
        Keys::OfLink => MOST_SPANS as u64,
        Keys::OfInput => MOST_ARRIVALS as u64,
    }
}

// Whether the amounts of these tables add up to no more than their bound.
#[tactic(auto, unfolding(crate::specs::Faults::is_few))]
fn is_few(keys: Keys, values: &[Value]) -> bool
    ensures { result ≡ is_few keys (map view values.now) }
{
    let most = most_amount(keys);
    let mut total = 0u64;
    for value in values {
        total = total.saturating_add(amount_of(keys, value));
        if total > most {
            return false;
        }
    }
    true
}

/// Whether each number and each size is in its range.
pub fn in_range(version: Version, table: &Table) -> bool
    ensures { result ≡ in_range version (table_view table.now) }
{
    Rule::InRange(version, node_count(table)).holds_in(table)
        & is_few(Keys::OfLink, elements(table, "link"))
        & is_few(Keys::OfInput, elements(table, "input"))
}
