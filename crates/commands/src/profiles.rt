// `monitor`: the profiles of a network.
ghost use Rattle.std.specs.Prelude.{◌≡◌, ◌≤◌, [], false, IfOk, OnOk};
ghost use Rattle.command_plans.specs.Ends.{stream};
ghost use Rattle.command_plans.specs.Parts.{Written};
ghost use Rattle.node_runner.specs.Scenario.{IsScenario, fleet_of};
ghost use Rattle.run_reports.specs.Profiles.{profiles_text, window_of};
ghost use Rattle.run_reports.specs.Tallies.{tallies};
ghost use Rattle.world_core.specs.Order.{run_rows};

use avr_base::NoMemory;
use command_plans::Trouble;
use fleet_plain::PlainRun;
use node_monitors::Tally;
use node_runner::Scenario;
use run_reports::{profiles_of, tally_all, tally_rows};
use sim_io::{Sink, write_all};
use std::alloc::Global;

// The cycles whose rows are held at once: with so few, those of 64 nodes stay small however long the window is.
const STEP: u64 = 16_384;

// Tallies the rows of a run that has not begun, and stops it where the window ends. Rows are dropped as soon as they are
// taken.
fn tally_run(network: &Scenario, run: &mut PlainRun, all: &mut Vec<Tally>) -> Result<(), NoMemory>
    requires sound { IsScenario network.now }
    requires within { network.now.to ≤ network.now.topo.limit }
    requires first { run.old ≡ record { scenario = network.now; floor = 0; failed = false } }
    requires untaken { all.old.items ≡ tallies network.now.topo.nodes (window_of network.now) [] }
    ensures taken { OnOk result (all.new.items ≡ tallies network.now.topo.nodes (window_of network.now) (run_rows (fleet_of network.now))) }
    ensures stops { OnOk result (run.new.floor ≡ network.now.to) }
{
    let end = network.window().1;
    while run.floor() < end {
        let next = (run.floor() + STEP).min(end);
        let rows = run.up_to(network, next)?;
        tally_rows(rows.as_slice(), all)?;
    }
    Ok(())
}

// The profile of each node of a network over its window, which lies within its run. `Err` only for want of memory.
fn profiles_text(alloc: Global, network: &Scenario) -> Result<Vec<u8>, NoMemory>
    requires { network.now.to ≤ network.now.topo.limit }
    ensures { IfOk result (λ text. text.items ≡ profiles_text network.now) }
{
    let mut run = PlainRun::new(alloc, network)?;
    let mut all = tally_all(alloc, network)?;
    tally_run(network, &mut run, &mut all)?;
    profiles_of(alloc, network, all)
}

/// Runs a network up to the end of its window, which lies within its run, and writes on what each node spent it. The
/// memory does not grow with the window.
pub fn write_profiles<'n, O: Sink>(
    alloc: Global,
    network: &Scenario,
    out: &mut O,
) -> Result<(), Trouble<'n>>
    requires { network.now.to ≤ network.now.topo.limit }
    ensures { Written (profiles_text network.now) (stream (O.taken out.old) (O.faults out.old)) (stream (O.taken out.new) (O.faults out.new)) result }
{
    let Ok(text) = profiles_text(alloc, network) else {
        return Err(Trouble::NoMemory);
    };
    match write_all(out, text.as_slice()) {
        Ok(()) => Ok(()),
        Err(_) => Err(Trouble::OutFailed),
    }
}
