// Links: their ends, their latencies and their spans.
ghost use Rattle.std.specs.Prelude.{◌≡◌, ◌≤◌, ◌++◌, true, None, map, length, IfOk, OnOk};
ghost use Rattle.toml.specs.View.{view, table_view};
ghost use Rattle.air_base.specs.declared.bounds.TheConstants.{MOST_NODES};
ghost use Rattle.world_core.specs.declared.spans.TheConstants.{MOST_SPANS};
ghost use Rattle.scenario_file.specs.Document.{on_table};
ghost use Rattle.scenario_file.specs.Rules.{has_ranges, version_of};
ghost use Rattle.scenario_file.specs.Faults.{all_in_range, links, link_of, goes_to_itself, any_self_link, two_equal, first_of, early_tests};
ghost use Rattle.scenario_file.specs.Scenario.{span_of, spans_from};
ghost use Rattle.scenario_file.specs.declared.keys.Keys.TheVariants.{OfLink};

use crate::document::{elements, elements_in, node_count, number_in, pair_of};
use crate::keys::Version;
use std::alloc::{AllocError, Global};
use toml::{Table, Value};
use world_core::{Link, Span, Topo};

fn goes_to_itself(value: &Value) -> bool
    ensures { result ≡ goes_to_itself (view value.now) }
{
    let from = number_in(value, "from", 0);
    let to = number_in(value, "to", 0);
    from == to
}

/// Whether a link goes to itself.
pub fn any_self_link(values: &[Value]) -> bool
    ensures { result ≡ any_self_link (map view values.now) }
{
    values.iter().any(goes_to_itself)
}

fn link_of(version: Version, count: u64, value: &Value) -> Link
    requires fits { on_table (has_ranges version count OfLink) (view value.now) ≡ true }
    requires few { count ≤ MOST_NODES }
    ensures { result ≡ link_of (view value.now) }
{
    let from = number_in(value, "from", 0);
    let to = number_in(value, "to", 0);
    Link {
        from: from as u8,
        to: to as u8,
    }
}

/// The links of a document, in their order.
pub fn links_of(
    alloc: Global,
    version: Version,
    count: u64,
    values: &[Value],
) -> Result<Vec<Link>, AllocError>
    requires fits { all_in_range version count OfLink (map view values.now) ≡ true }
    requires few { count ≤ MOST_NODES }
    ensures { IfOk result (λ links. links.items ≡ map link_of (map view values.now)) }
{
    let mut links = Vec::new(alloc);
    for value in values {
        links.push(link_of(version, count, value))?;
    }
    Ok(links)
}

/// Whether two links are equal, in a document without an earlier fault. The topology tells: it takes the links, and
/// nothing else can be wrong with it.
pub fn any_twice_linked(alloc: Global, version: Version, table: &Table) -> Result<bool, AllocError>
    requires version { version ≡ version_of (table_view table.now) }
    requires early { first_of (early_tests (table_view table.now)) ≡ None }
    ensures { IfOk result (λ twice. twice ≡ two_equal (map link_of (links (table_view table.now)))) }
{
    let count = node_count(table);
    let links = links_of(alloc, version, count, elements(table, "link"))?;
    match Topo::new(count as u8, 1, 1, 256, links) {
        Ok(_) => Ok(false),
        Err(_) => Ok(true),
    }
}

fn span_of(place: u32, value: &Value) -> Span
    ensures { result ≡ span_of place (view value.now) }
{
    let (from, until) = pair_of(value).unwrap_or((0, 0));
    Span {
        link: place,
        from,
        until,
    }
}

fn push_spans(spans: &mut Vec<Span>, place: u32, values: &[Value]) -> Result<(), AllocError>
    ensures { OnOk result (spans.new.items ≡ spans.old.items ++ map (span_of place) (map view values.now)) }
{
    for value in values {
        spans.push(span_of(place, value))?;
    }
    Ok(())
}

/// The spans of all links, in the order of the links.
pub fn spans_of(alloc: Global, values: &[Value]) -> Result<Vec<Span>, AllocError>
    requires { length values.now ≤ MOST_SPANS }
    ensures { IfOk result (λ spans. spans.items ≡ spans_from 0 (map view values.now)) }
{
    let mut spans = Vec::new(alloc);
    for (place, value) in values.iter().enumerate() {
        push_spans(&mut spans, place as u32, elements_in(value, "open"))?;
    }
    Ok(spans)
}
