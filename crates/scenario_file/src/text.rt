// The scenario of a text.
ghost use Rattle.std.specs.Prelude.{◌≡◌, ◌≢◌, ◌⊎◌, map, IfOk, IfErr};
ghost use Rattle.toml.specs.View.{view, table_view};
ghost use Rattle.scenario_file.specs.Faults.{document_of, document_fault};
ghost use Rattle.scenario_file.specs.Scenario.{image_of, topology_of, parts_of, scenario_in, IsScenario};
ghost use Rattle.scenario_file.specs.Shown.{parts};

use crate::ScenarioFault;
use crate::defaults::{BYTE_TIME, LATENCY};
use crate::document::{elements, node_count, number_at, numbers_in, pair_at, text_in};
use crate::faults::document_fault;
use crate::inputs::scripts_of;
use crate::keys::version_of;
use crate::links::{links_of, spans_of};
use serial_ports::Script;
use sim_io::Name;
use std::alloc::{AllocError, Global};
use toml::{Table, Value};
use world_core::Topo;

/// What a scenario's text says: the nodes and the air between them, which image each node runs, what arrives at it, and
/// from which cycle on and below which instructions are traced.
#[derive(Drop)]
pub struct ScenarioText {
    /// The nodes, their cycle limit, and who hears whom.
    pub topo: Topo,
    /// The file name of each node's image, in UTF-8, 1 to 255 bytes.
    pub images: Vec<Name>,
    /// The bytes that arrive at each node; no byte where it has no input.
    pub scripts: Vec<Script>,
    /// The window in cycles: its first, and the first behind it.
    pub window: (u64, u64),
}

fn images_of(alloc: Global, values: &[Value]) -> Result<Vec<Name>, AllocError>
    ensures { IfOk result (λ images. images.items ≡ map image_of (map view values.now)) }
{
    let mut images = Vec::new(alloc);
    for value in values {
        match Name::new(alloc, text_in(value, "image")) {
            Ok(name) => images.push(name)?,
            Err(_) => return Err(AllocError),
        }
    }
    Ok(images)
}

// The topology of a document without a fault.
#[tactic(auto, unfolding(crate::specs::Scenario::topology_of))]
fn topology_of(alloc: Global, table: &Table) -> Result<Topo, AllocError>
    requires { document_fault (table_view table.now) ≡ None }
    ensures { IfOk result (λ topo. topo ≡ topology_of (table_view table.now)) }
{
    let count = node_count(table);
    let latency = number_at(table, "latency", LATENCY);
    let values = elements(table, "link");
    let links = links_of(alloc, version_of(table), count, values)?;
    let own = numbers_in(alloc, values, "latency", latency)?;
    let spans = spans_of(alloc, values)?;
    let cycles = number_at(table, "cycles", 0);
    let byte_time = number_at(table, "byte_time", BYTE_TIME);
    match Topo::with_spans(count as u8, cycles, latency, byte_time, links, own, spans) {
        Ok(topo) => Ok(topo),
        Err(_) => unreachable!(),
    }
}

// The scenario of a document without a fault.
#[tactic(auto, unfolding(crate::specs::Scenario::parts_of))]
fn scenario(alloc: Global, table: &Table) -> Result<ScenarioText, AllocError>
    requires { document_fault (table_view table.now) ≡ None }
    ensures ok { IfOk result (λ s. parts s ≡ parts_of (table_view table.now)) }
    ensures lawful { IfOk result (λ s. IsScenario (parts s)) }
{
    let topo = topology_of(alloc, table)?;
    let images = images_of(alloc, elements(table, "node"))?;
    let inputs = elements(table, "input");
    let scripts = scripts_of(alloc, version_of(table), node_count(table), inputs)?;
    Ok(ScenarioText {
        topo,
        images,
        scripts,
        window: pair_at(table, "window"),
    })
}

// The document of the bytes.
fn table(alloc: Global, bytes: &[u8]) -> Result<Table, ScenarioFault>
    ensures ok { IfOk result (λ t. document_of bytes.now ≡ Some (table_view t)) }
    ensures err { IfErr result (λ e. (e ≡ ScenarioFault.NoMemory) ⊎ ((e ≡ ScenarioFault.NotToml) × (document_of bytes.now ≡ None))) }
{
    match toml::table_from_slice(alloc, bytes) {
        Ok(table) => Ok(table),
        Err(error) => {
            if error.is_memory() {
                Err(ScenarioFault::NoMemory)
            } else {
                Err(ScenarioFault::NotToml)
            }
        }
    }
}

/// Reads the text of a scenario, in the version that it names. `Ok` is exactly the scenario that it says, `Err` the
/// lowest fault that applies, or `NoMemory` where an allocation was refused.
#[tactic(auto, unfolding(crate::specs::Scenario::scenario_in))]
pub fn read(alloc: Global, bytes: &[u8]) -> Result<ScenarioText, ScenarioFault>
    ensures ok { IfOk result (λ s. scenario_in bytes.now ≡ Ok (parts s)) }
    ensures lawful { IfOk result (λ s. IsScenario (parts s)) }
    ensures err { IfErr result (λ e. e ≢ ScenarioFault.NoMemory → scenario_in bytes.now ≡ Err e) }
{
    let table = match table(alloc, bytes) {
        Ok(table) => table,
        Err(fault) => return Err(fault),
    };
    match document_fault(alloc, &table) {
        Err(_) => Err(ScenarioFault::NoMemory),
        Ok(Some(fault)) => Err(fault),
        Ok(None) => match scenario(alloc, &table) {
            Ok(scenario) => Ok(scenario),
            Err(_) => Err(ScenarioFault::NoMemory),
        },
    }
}
