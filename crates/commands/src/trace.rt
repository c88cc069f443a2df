// `run --plain`, `node`: the trace of a network, on one thread; `head`: that of its first epochs.
ghost use Rattle.std.specs.Prelude.{◌≡◌, ◌<◌, ◌*◌, false};
ghost use Rattle.command_plans.specs.Ends.{stream};
ghost use Rattle.command_plans.specs.Parts.{Written};
ghost use Rattle.commands.specs.Network.{trace_of};
ghost use Rattle.commands.specs.Parts.{EndsEpoch};
ghost use Rattle.world_core.specs.Kept.{epoch};
ghost use Rattle.fleet_flight.specs.Rows.{rows_upto};
ghost use Rattle.node_runner.specs.Scenario.{IsScenario, fleet_of};
ghost use Rattle.trace_writer.specs.Line.{rows_text};
ghost use Rattle.world_core.specs.Order.{world_at};

use command_plans::Trouble;
use fleet_plain::PlainRun;
use node_runner::Scenario;
use sim_io::Sink;
use std::alloc::Global;
use world_core::EPOCH;

// Writes the rows of each epoch of a run that has not begun, up to the cycle `end`, before the next one is run.
fn write_epochs<'n, O: Sink>(
    network: &Scenario,
    run: &mut PlainRun,
    end: u64,
    out: &mut O,
) -> Result<(), Trouble<'n>>
    requires sound { IsScenario network.now }
    requires first { run.old ≡ record { scenario = network.now; floor = 0; failed = false } }
    requires end { EndsEpoch network.now end }
    ensures { Written (rows_text (rows_upto (fleet_of network.now) end)) (stream (O.taken out.old) (O.faults out.old)) (stream (O.taken out.new) (O.faults out.new)) result }
{
    while run.floor() < end {
        let Ok(rows) = run.epoch(network) else {
            return Err(Trouble::NoMemory);
        };
        match trace_writer::write(rows.as_slice(), out) {
            Ok(()) => {}
            Err(_) => return Err(Trouble::OutFailed),
        }
    }
    Ok(())
}

/// Runs a network and writes its trace, the rows of each epoch before the next one is run.
pub fn write_trace<'n, O: Sink>(
    alloc: Global,
    network: &Scenario,
    out: &mut O,
) -> Result<(), Trouble<'n>>
    ensures { Written (trace_of network.now) (stream (O.taken out.old) (O.faults out.old)) (stream (O.taken out.new) (O.faults out.new)) result }
{
    match PlainRun::new(alloc, network) {
        Ok(mut run) => write_epochs(network, &mut run, network.lawful_topo().limit(), out),
        Err(_) => Err(Trouble::NoMemory),
    }
}

/// Runs a network over its first epochs, which end below its limit, and writes their rows; it goes no further.
pub fn write_head<'n, O: Sink>(
    alloc: Global,
    network: &Scenario,
    epochs: u64,
    out: &mut O,
) -> Result<(), Trouble<'n>>
    requires { epochs * epoch < network.now.topo.limit }
    ensures { Written (rows_text (world_at (fleet_of network.now) (epochs * epoch)).rows) (stream (O.taken out.old) (O.faults out.old)) (stream (O.taken out.new) (O.faults out.new)) result }
{
    match PlainRun::new(alloc, network) {
        Ok(mut run) => write_epochs(network, &mut run, epochs * EPOCH, out),
        Err(_) => Err(Trouble::NoMemory),
    }
}
