// What stands at a key of a document.
ghost use Rattle.std.specs.Prelude.{◌≡◌, IfOk, option_map, length, map};
ghost use Rattle.toml.specs.Data.{get_member};
ghost use Rattle.toml.specs.View.{view, table_view};
ghost use Rattle.scenario_file.specs.Document.{elements, has_key, members_of, natural, natural_in, number_at, number_in, text_at, pair_in, pair_of, pair_at};
ghost use Rattle.scenario_file.specs.Faults.{nodes};

use std::alloc::{AllocError, Global};
use toml::{Table, Value};

/// What stands at a key of a table.
pub fn member<'t>(table: &'t Table, key: &str) -> Option<&'t Value>
    ensures { option_map (λ v. view v.now) result ≡ get_member key.now (table_view table.now) }
{
    table.get(key)
}

/// Whether anything stands at a key of a table, be it of the wrong kind.
pub fn has_key(table: &Table, key: &str) -> bool
    ensures { result ≡ has_key key.now (table_view table.now) }
{
    member(table, key).is_some()
}

/// The elements of the array at a key; none where no array stands there.
pub fn elements<'t>(table: &'t Table, key: &str) -> &'t [Value]
    ensures { map view result.now ≡ elements key.now (table_view table.now) }
{
    match member(table, key) {
        None => &[],
        Some(value) => match value.as_array() {
            None => &[],
            Some(values) => values.as_slice(),
        },
    }
}

/// How many nodes a document has.
#[tactic(auto, using(crate::proofs::Lists::length_map))]
pub fn node_count(table: &Table) -> u64
    ensures { result ≡ length (nodes (table_view table.now)) }
{
    elements(table, "node").len() as u64
}

/// A whole number that is not negative.
pub fn natural(value: i64) -> Option<u64>
    ensures { result ≡ natural value }
{
    u64::try_from(value).ok()
}

/// The whole number at a key, or the default.
pub fn number_at(table: &Table, key: &str, default: u64) -> u64
    ensures { result ≡ number_at key.now default (table_view table.now) }
{
    match member(table, key) {
        None => default,
        Some(value) => match value.as_integer() {
            None => default,
            Some(n) => natural(n).unwrap_or(0),
        },
    }
}

fn natural_in(value: &Value) -> Option<u64>
    ensures { result ≡ natural_in (view value.now) }
{
    match value.as_integer() {
        Some(n) => natural(n),
        None => None,
    }
}

#[tactic(auto, using(crate::proofs::Lists::pair_is))]
fn pair_in(values: &[Value]) -> Option<(u64, u64)>
    ensures { result ≡ pair_in (map view values.now) }
{
    match values {
        [first, second] => natural_in(first).zip(natural_in(second)),
        _ => None,
    }
}

/// The numbers of an array of two whole numbers that are not negative.
pub fn pair_of(value: &Value) -> Option<(u64, u64)>
    ensures { result ≡ pair_of (view value.now) }
{
    match value.as_array() {
        Some(values) => pair_in(values.as_slice()),
        None => None,
    }
}

/// The pair at a key, and 0 and 0 where none stands there.
pub fn pair_at(table: &Table, key: &str) -> (u64, u64)
    ensures { result ≡ pair_at key.now (table_view table.now) }
{
    match member(table, key) {
        Some(value) => pair_of(value).unwrap_or((0, 0)),
        None => (0, 0),
    }
}

/// The number at a key of a table, or the default.
pub fn number_in(value: &Value, key: &str, default: u64) -> u64
    ensures { result ≡ number_at key.now default (members_of (view value.now)) }
{
    match value.as_table() {
        Some(table) => number_at(table, key, default),
        None => default,
    }
}

/// The number at a key of each of these tables, in their order, or the default. `Err` only for want of memory.
pub fn numbers_in(
    alloc: Global,
    values: &[Value],
    key: &str,
    default: u64,
) -> Result<Vec<u64>, AllocError>
    ensures { IfOk result (λ numbers. numbers.items ≡ map (number_in key.now default) (map view values.now)) }
{
    let mut numbers = Vec::new(alloc);
    for value in values {
        numbers.push(number_in(value, key, default))?;
    }
    Ok(numbers)
}

/// The text at a key of a table, or no text.
pub fn text_in<'t>(value: &'t Value, key: &str) -> &'t str
    ensures { result.now ≡ text_at key.now (members_of (view value.now)) }
{
    let Some(table) = value.as_table() else {
        return "";
    };
    match member(table, key) {
        None => "",
        Some(value) => match value.as_str() {
            None => "",
            Some(text) => text,
        },
    }
}

/// The elements of the array at a key of a table; none where no array stands there.
pub fn elements_in<'t>(value: &'t Value, key: &str) -> &'t [Value]
    ensures { map view result.now ≡ elements key.now (members_of (view value.now)) }
{
    match value.as_table() {
        Some(table) => elements(table, key),
        None => &[],
    }
}
