// The ranges of numbers, and the sizes of texts; what is of another kind passes here. Each test is made, by `&`, as in
// `rules.rt`.
ghost use Rattle.std.specs.Prelude.{◌≡◌, ◌%◌, ◌==◌, ◌&&◌, length, map};
ghost use Rattle.std.specs.List.{list_all};
ghost use Rattle.std.specs.Char.{is_ascii_hexdigit};
ghost use Rattle.toml.specs.View.{view};
ghost use Rattle.scenario_file.specs.Document.{on_array};
ghost use Rattle.scenario_file.specs.Rules.{fits, is_node, is_name, is_hex, is_window, is_span_behind, end_of, are_spans_behind, are_spans};

use crate::document::{natural, pair_of};
use air_base::LAST_CYCLE;
use toml::Value;

/// The most cycles of a window, in which instructions are traced.
pub const WIDEST_WINDOW: u64 = 20_000;

/// A number in a range.
pub fn fits(least: u64, most: u64, value: &Value) -> bool
    ensures { result ≡ fits least most (view value.now) }
{
    match value.as_integer() {
        None => true,
        Some(number) => match natural(number) {
            Some(n) => (least <= n) & (n <= most),
            None => false,
        },
    }
}

/// The number of one of so many nodes.
pub fn is_node(count: u64, value: &Value) -> bool
    ensures { result ≡ is_node count (view value.now) }
{
    if count == 0 {
        return false;
    }
    fits(0, count - 1, value)
}

/// The name of a file, 1 to 255 bytes.
pub fn is_name(value: &Value) -> bool
    ensures { result ≡ is_name (view value.now) }
{
    match value.as_str() {
        None => true,
        Some(text) => (1 <= text.len()) & (text.len() <= 255),
    }
}

fn has_hex_digits(text: &str) -> bool
    ensures { result ≡ list_all is_ascii_hexdigit text.now }
{
    text.bytes().all(|c| c.is_ascii_hexdigit())
}

/// An even number of hexadecimal digits.
pub fn is_hex(value: &Value) -> bool
    ensures { result ≡ is_hex (view value.now) }
{
    match value.as_str() {
        None => true,
        Some(text) => has_hex_digits(text) & (text.len() % 2 == 0),
    }
}

/// A window of a run of so many cycles.
pub fn is_window(cycles: u64, value: &Value) -> bool
    ensures { result ≡ is_window cycles (view value.now) }
{
    match pair_of(value) {
        Some((first, last)) => {
            (first <= last) & (last <= cycles) & (last.saturating_sub(first) <= WIDEST_WINDOW)
        }
        None => false,
    }
}

fn is_span_behind(last: u64, pair: Option<(u64, u64)>) -> bool
    ensures { result ≡ is_span_behind last pair }
{
    match pair {
        Some((from, until)) => (last <= from) & (from < until) & (until <= LAST_CYCLE),
        None => false,
    }
}

fn end_of(pair: Option<(u64, u64)>) -> u64
    ensures { result ≡ end_of pair }
{
    match pair {
        Some((_, until)) => until,
        None => 0,
    }
}

#[tactic(auto, unfolding(crate::specs::Rules::are_spans_behind))]
fn are_spans_from_zero(values: &[Value]) -> bool
    ensures { result ≡ are_spans_behind 0 (map view values.now) }
{
    let mut last = 0u64;
    let mut rest = values;
    while let Some((first, later)) = rest.split_first() {
        let pair = pair_of(first);
        if !is_span_behind(last, pair) {
            return false;
        }
        last = end_of(pair);
        rest = later;
    }
    true
}

#[tactic(auto, using(crate::proofs::Lists::length_map))]
fn are_spans(values: &[Value]) -> bool
    ensures { result ≡ are_spans (map view values.now) }
{
    if values.is_empty() {
        return false;
    }
    are_spans_from_zero(values)
}

/// An array of spans, at least one, each of which does not begin below the end of the one before.
pub fn is_array_of_spans(value: &Value) -> bool
    ensures { result ≡ on_array are_spans (view value.now) }
{
    match value.as_array() {
        Some(values) => are_spans(values.as_slice()),
        None => false,
    }
}
