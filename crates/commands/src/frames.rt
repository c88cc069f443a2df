// `sniff`: the frames of a network.
ghost use Rattle.std.specs.Prelude.{◌≡◌, false, IfOk, OnOk};
ghost use Rattle.command_plans.specs.Ends.{stream};
ghost use Rattle.command_plans.specs.Parts.{Written};
ghost use Rattle.node_runner.specs.Scenario.{IsScenario, fleet_of};
ghost use Rattle.run_reports.specs.Frames.{frames_text, sends_told};
ghost use Rattle.run_reports.specs.Sniffing.{fed_all, of_each, unfed};
ghost use Rattle.world_core.specs.Order.{run_rows};

use avr_base::NoMemory;
use command_plans::Trouble;
use fleet_plain::PlainRun;
use node_runner::Scenario;
use run_reports::{Sniffing, feed_rows, frames_of, sniff_all};
use sim_io::{Sink, write_all};
use std::alloc::Global;

// Feeds all rows of a run that has not begun, epoch by epoch.
fn feed_run(
    alloc: Global,
    network: &Scenario,
    run: &mut PlainRun,
    all: &mut Vec<Sniffing>,
) -> Result<(), NoMemory>
    requires sound { IsScenario network.now }
    requires first { run.old ≡ record { scenario = network.now; floor = 0; failed = false } }
    requires unfed { all.old.items ≡ of_each network.now.topo.nodes unfed }
    ensures { OnOk result (all.new.items ≡ of_each network.now.topo.nodes (fed_all (sends_told (run_rows (fleet_of network.now))))) }
{
    while !run.done() {
        let rows = run.epoch(network)?;
        feed_rows(alloc, rows.as_slice(), all)?;
    }
    Ok(())
}

// The frames that each node of a network sends, node after node, over its whole run. Of the run so far only frames are
// kept, and at most 35 sends of each node. `Err` only for want of memory.
fn frames_text(alloc: Global, network: &Scenario) -> Result<Vec<u8>, NoMemory>
    ensures { IfOk result (λ text. text.items ≡ frames_text network.now) }
{
    let mut run = PlainRun::new(alloc, network)?;
    let mut all = sniff_all(alloc, network)?;
    feed_run(alloc, network, &mut run, &mut all)?;
    frames_of(alloc, all)
}

/// Runs a network, and writes the frames that each node sent.
pub fn write_frames<'n, O: Sink>(
    alloc: Global,
    network: &Scenario,
    out: &mut O,
) -> Result<(), Trouble<'n>>
    ensures { Written (frames_text network.now) (stream (O.taken out.old) (O.faults out.old)) (stream (O.taken out.new) (O.faults out.new)) result }
{
    let Ok(text) = frames_text(alloc, network) else {
        return Err(Trouble::NoMemory);
    };
    match write_all(out, text.as_slice()) {
        Ok(()) => Ok(()),
        Err(_) => Err(Trouble::OutFailed),
    }
}
