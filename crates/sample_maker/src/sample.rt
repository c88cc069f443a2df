// The sample of a number.
ghost use Rattle.std.specs.Prelude.{◌≡◌, ◌≤◌, map, IfOk};
ghost use Rattle.std.specs.List.{range_with_len};
ghost use Rattle.scenario_file.specs.Scenario.{no_script};
ghost use Rattle.node_runner.specs.Scenario.{IsScenario};
ghost use Rattle.sample_maker.specs.Sample.{first_byte, rounds, image_of_node, sample};
ghost use Rattle.air_base.specs.declared.bounds.TheConstants.{MOST_NODES};

use crate::network::ring_topology;
use crate::ring::ring_image;
use avr_base::NoMemory;
use avr_program::Program;
use node_runner::Scenario;
use scenario_file::{ScenarioText, no_script};
use serial_ports::Script;
use std::alloc::{AllocError, Global};

fn first_byte(number: u16, node: u8) -> u8
    ensures { result ≡ first_byte number node }
{
    ((u32::from(number) + 37 * u32::from(node)) % 256) as u8
}

fn rounds(number: u16, node: u8) -> u8
    ensures { result ≡ rounds number node }
{
    (1 + (u32::from(number) + 7 * u32::from(node)) % 64) as u8
}

// The program memory of each node.
fn images(alloc: Global, number: u16, nodes: u8) -> Result<Vec<Program>, NoMemory>
    ensures { IfOk result (λ images. images.items ≡ map (image_of_node number) (range_with_len 0 nodes)) }
{
    let mut images = Vec::new(alloc);
    for k in 0..nodes {
        let image = ring_image(alloc, first_byte(number, k), rounds(number, k))?;
        if images.push(Program::new(alloc, image)?).is_err() {
            return Err(NoMemory);
        }
    }
    Ok(images)
}

// No byte arrives at any node.
fn no_scripts(alloc: Global, nodes: u8) -> Result<Vec<Script>, NoMemory>
    ensures { IfOk result (λ scripts. scripts.items ≡ map (λ k. no_script) (range_with_len 0 nodes)) }
{
    let mut scripts = Vec::new(alloc);
    for _node in 0..nodes {
        if scripts.push(no_script(alloc)).is_err() {
            return Err(NoMemory);
        }
    }
    Ok(scripts)
}

/// The sample of `number`, with so many nodes, 1 to 64: a ring in which each node is heard by the next one, over
/// 1,000,000 cycles. A byte is heard for 512 cycles, from 1 to 4,096 cycles after its send on, as the number says; so
/// it says of each node which byte is its first and how long it waits before it. No byte arrives from outside, and no
/// instruction is traced. `Err` only for want of memory.
#[tactic(auto, unfolding(crate::specs::Sample::sample))]
pub fn make(alloc: Global, number: u16, nodes: u8) -> Result<Scenario, NoMemory>
    requires some { 1 ≤ nodes }
    requires few { nodes ≤ MOST_NODES }
    ensures value { IfOk result (λ scenario. scenario ≡ sample number nodes) }
    ensures sound { IfOk result (λ scenario. IsScenario scenario) }
{
    let text = ScenarioText {
        topo: ring_topology(alloc, number, nodes)?,
        images: Vec::new(alloc),
        scripts: no_scripts(alloc, nodes)?,
        window: (0, 0),
    };
    let scenario = Scenario::new(text, images(alloc, number, nodes)?);
    // The call's clause says that the scenario is one (`IsScenario`), which the caller rests on.
    let _sound = scenario.lawful_topo();
    Ok(scenario)
}
