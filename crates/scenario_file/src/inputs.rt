// Inputs: which node they belong to, and the script of each node.
ghost use Rattle.std.specs.Prelude.{◌≡◌, ◌==◌, ◌/◌, ◌≤◌, true, map, length, IfOk};
ghost use Rattle.std.specs.List.{count_by};
ghost use Rattle.toml.specs.View.{view, table_view};
ghost use Rattle.serial_ports.specs.declared.stretch.TheConstants.{MOST_ARRIVALS};
ghost use Rattle.scenario_file.specs.Document.{on_table, members_of, text_at};
ghost use Rattle.scenario_file.specs.Rules.{has_ranges};
ghost use Rattle.scenario_file.specs.Faults.{all_in_range, amount_of, is_few, any_twice};
ghost use Rattle.scenario_file.specs.Scenario.{bytes_in, script_of, script_for, scripts_below};
ghost use Rattle.scenario_file.specs.declared.keys.Keys.TheVariants.{OfInput};

use crate::defaults::{EVERY, no_script};
use crate::document::{number_in, text_in};
use crate::keys::Version;
use serial_ports::Script;
use std::alloc::{AllocError, Global};
use toml::Value;

fn count_of(node: u64, nodes: &[u64]) -> usize
    ensures { result ≡ count_by (λ m. m == node) nodes.now }
{
    let mut count = 0;
    for other in nodes {
        if *other == node {
            count += 1;
        }
    }
    count
}

/// Whether one of so many nodes has more than one input.
#[tactic(auto, unfolding(crate::specs::Faults::any_twice))]
pub fn any_twice(count: u64, nodes: &[u64]) -> bool
    ensures { result ≡ any_twice count nodes.now }
{
    for node in 0..count {
        if count_of(node, nodes) > 1 {
            return true;
        }
    }
    false
}

fn bytes_in(alloc: Global, text: &str) -> Result<Vec<u8>, AllocError>
    ensures { IfOk result (λ bytes. bytes.items ≡ bytes_in text.now) }
{
    match hex::decode(alloc, text.as_bytes()) {
        Ok(bytes) => Ok(bytes),
        Err(hex::FromHexError::OutOfMemory) => Err(AllocError),
        Err(_) => Ok(Vec::new(alloc)),
    }
}

fn script_of(
    alloc: Global,
    version: Version,
    count: u64,
    value: &Value,
) -> Result<Script, AllocError>
    requires fits { on_table (has_ranges version count OfInput) (view value.now) ≡ true }
    requires few { amount_of OfInput (view value.now) ≤ MOST_ARRIVALS }
    ensures { IfOk result (λ script. script ≡ script_of (view value.now)) }
{
    let bytes = bytes_in(alloc, text_in(value, "hex"))?;
    let at = number_in(value, "at", 0);
    let every = number_in(value, "every", EVERY);
    Ok(Script::new(at, every, bytes))
}

// The script of a node: that of its input, or no byte.
fn script_for(
    alloc: Global,
    version: Version,
    count: u64,
    node: u64,
    values: &[Value],
) -> Result<Script, AllocError>
    requires fits { all_in_range version count OfInput (map view values.now) ≡ true }
    requires few { is_few OfInput (map view values.now) ≡ true }
    ensures { IfOk result (λ script. script ≡ script_for node (map view values.now)) }
{
    for value in values {
        if number_in(value, "node", 0) == node {
            return script_of(alloc, version, count, value);
        }
    }
    Ok(no_script(alloc))
}

/// The script of each of so many nodes, in the order of their numbers.
#[tactic(auto, unfolding(crate::specs::Scenario::scripts_below))]
pub fn scripts_of(
    alloc: Global,
    version: Version,
    count: u64,
    values: &[Value],
) -> Result<Vec<Script>, AllocError>
    requires fits { all_in_range version count OfInput (map view values.now) ≡ true }
    requires few { is_few OfInput (map view values.now) ≡ true }
    ensures { IfOk result (λ scripts. scripts.items ≡ scripts_below count (map view values.now)) }
{
    let mut scripts = Vec::new(alloc);
    for node in 0..count {
        scripts.push(script_for(alloc, version, count, node, values)?)?;
    }
    Ok(scripts)
}
