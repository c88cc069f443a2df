// The fault of a document.
ghost use Rattle.std.specs.Prelude.{◌≡◌, None, IfOk};
ghost use Rattle.toml.specs.View.{table_view};
ghost use Rattle.scenario_file.specs.Rules.{version_of};
ghost use Rattle.scenario_file.specs.Faults.{document_fault, early_tests, late_tests, first_of};

use crate::ScenarioFault;
use crate::amounts::in_range;
use crate::document::{elements, node_count, numbers_in};
use crate::inputs::any_twice;
use crate::keys::{Version, version_of};
use crate::links::{any_self_link, any_twice_linked};
use crate::rules::{Rule, right_kinds};
use air_base::MOST_NODES;
use std::alloc::{AllocError, Global};
use toml::Table;

// The most nodes, as they are counted here.
const MOST: u64 = MOST_NODES as u64;

// The lowest of the faults 2 to 8.
#[tactic(auto, unfolding(crate::specs::Faults::early_tests), using(crate::proofs::Held::unknown_is, crate::proofs::Held::missing_is))]
fn early_fault(version: Version, table: &Table) -> Option<ScenarioFault>
    requires { version ≡ version_of (table_view table.now) }
    ensures { result ≡ first_of (early_tests (table_view table.now)) }
{
    let count = node_count(table);
    if !Rule::NoOtherKey(version).holds_in(table) {
        Some(ScenarioFault::UnknownKey)
    } else if !Rule::Complete.holds_in(table) {
        Some(ScenarioFault::Missing)
    } else if !right_kinds(table) {
        Some(ScenarioFault::WrongKind)
    } else if !in_range(version, table) {
        Some(ScenarioFault::OutOfRange)
    } else if count == 0 {
        Some(ScenarioFault::NoNodes)
    } else if count > MOST {
        Some(ScenarioFault::TooManyNodes)
    } else if any_self_link(elements(table, "link")) {
        Some(ScenarioFault::SelfLink)
    } else {
        None
    }
}

// The lower of the faults 9 and 10, where none before them applies.
#[tactic(auto, unfolding(crate::specs::Faults::late_tests))]
fn late_fault(
    alloc: Global,
    version: Version,
    table: &Table,
) -> Result<Option<ScenarioFault>, AllocError>
    requires version { version ≡ version_of (table_view table.now) }
    requires early { first_of (early_tests (table_view table.now)) ≡ None }
    ensures { IfOk result (λ fault. fault ≡ first_of (late_tests (table_view table.now))) }
{
    if any_twice_linked(alloc, version, table)? {
        return Ok(Some(ScenarioFault::TwiceLinked));
    }
    let nodes = numbers_in(alloc, elements(table, "input"), "node", 0)?;
    let twice = any_twice(node_count(table), nodes.as_slice());
    Ok(twice.then_some(ScenarioFault::TwiceScripted))
}

/// The lowest fault that applies to a document, if one does.
#[tactic(auto, unfolding(crate::specs::Faults::document_fault), using(crate::proofs::Clean::first_of_both))]
pub fn document_fault(alloc: Global, table: &Table) -> Result<Option<ScenarioFault>, AllocError>
    ensures { IfOk result (λ fault. fault ≡ document_fault (table_view table.now)) }
{
    let version = version_of(table);
    if let Some(fault) = early_fault(version, table) {
        return Ok(Some(fault));
    }
    late_fault(alloc, version, table)
}
