// The network whose states are read.
use avr_program::Program;
use ihex_loader::load;
use node_runner::Scenario;
use scenario_file::{ScenarioText, no_script};
use std::alloc::Global;
use stored_cases::Failed;
use world_core::{Link, Topo};

// A program of no instructions.
fn no_program(alloc: Global) -> Result<Program, Failed> {
    match load(alloc, b":00000001FF\n") {
        Ok(flash) => Ok(Program::new(alloc, flash)?),
        Err(_) => Err(Failed),
    }
}

/// Two nodes, of which the second hears the first, for a million cycles: a send may be heard for its latency of 272
/// cycles and the byte time of 512.
pub fn two_nodes(alloc: Global) -> Result<Scenario, Failed> {
    let links = vec![in alloc; Link { from: 0, to: 1 }]?;
    let Ok(topo) = Topo::new(2, 1_000_000, 272, 512, links) else {
        return Err(Failed);
    };
    let text = ScenarioText {
        topo,
        images: Vec::new(alloc),
        scripts: vec![in alloc; no_script(alloc), no_script(alloc)]?,
        window: (0, 0),
    };
    Ok(Scenario::new(
        text,
        vec![in alloc; no_program(alloc)?, no_program(alloc)?]?,
    ))
}
