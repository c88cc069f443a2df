// `node`: the network of one node; `check`: how large a network is.
ghost use Rattle.std.specs.Prelude.{◌≡◌, ◌≤◌, IfOk};
ghost use Rattle.commands.specs.Network.{lone_node, size_line};
ghost use Rattle.command_plans.specs.Ends.{stream};
ghost use Rattle.command_plans.specs.Parts.{Written};
ghost use Rattle.air_base.specs.declared.bounds.TheConstants.{LAST_SHORT_CYCLE};

use arrayvec::ArrayString;
use avr_base::NoMemory;
use avr_program::Program;
use command_plans::Trouble;
use ihex_loader::Flash;
use node_runner::Scenario;
use scenario_file::{BYTE_TIME, LATENCY, ScenarioText, WIDEST_WINDOW, no_script};
use sim_io::{Sink, put_decimal, write_all};
use std::alloc::Global;
use world_core::Topo;

/// The network of one node that hears nobody and at which nothing arrives, over `cycles` cycles, 1 to `LAST_SHORT_CYCLE`. Its
/// instructions are traced from cycle 0 on, as far as a window goes. `Err`
/// only for want of memory.
pub fn lone_node(alloc: Global, flash: Flash, cycles: u64) -> Result<Scenario, NoMemory>
    requires some { 1 ≤ cycles }
    requires limit { cycles ≤ LAST_SHORT_CYCLE }
    ensures { IfOk result (λ network. network ≡ lone_node flash cycles) }
{
    let mut images = Vec::with_capacity(alloc, 1)?;
    images.push_reserved(Program::new(alloc, flash)?);
    let mut scripts = Vec::with_capacity(alloc, 1)?;
    scripts.push_reserved(no_script(alloc));
    let Ok(topo) = Topo::new(1, cycles, LATENCY, BYTE_TIME, Vec::new(alloc)) else {
        unreachable!();
    };
    let text = ScenarioText {
        topo,
        images: Vec::new(alloc),
        scripts,
        window: (0, cycles.min(WIDEST_WINDOW)),
    };
    Ok(Scenario::new(text, images))
}

// The line that says how large a network is.
#[tactic(auto, unfolding(crate::specs::Network::size_line))]
fn size_line(network: &Scenario) -> ArrayString<128>
    ensures { result.bytes ≡ size_line network.now }
{
    let topo = network.lawful_topo();
    let mut line = ArrayString::new();
    line.push_str("ok ");
    put_decimal(usize::from(topo.nodes()), &mut line);
    line.push_str(" nodes, ");
    put_decimal(topo.links().len(), &mut line);
    line.push_str(" links, ");
    put_decimal(topo.limit() as usize, &mut line);
    line.push_str(" cycles\n");
    line
}

/// Writes how many nodes, links and cycles a network has.
pub fn write_size<'n, O: Sink>(network: &Scenario, out: &mut O) -> Result<(), Trouble<'n>>
    ensures { Written (size_line network.now) (stream (O.taken out.old) (O.faults out.old)) (stream (O.taken out.new) (O.faults out.new)) result }
{
    let line = size_line(network);
    match write_all(out, line.as_str().as_bytes()) {
        Ok(()) => Ok(()),
        Err(_) => Err(Trouble::OutFailed),
    }
}
