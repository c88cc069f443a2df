// `watch`: what is seen at places of a network, between two cycles.
ghost use Rattle.std.specs.Prelude.{◌≡◌, ◌≤◌};
ghost use Rattle.changes_text.specs.Line.{changes_text};
ghost use Rattle.command_plans.specs.Ends.{stream};
ghost use Rattle.command_plans.specs.Parts.{Written};
ghost use Rattle.commands.specs.Parts.{IsWatch, IsWatchOn};
ghost use Rattle.commands.specs.Texts.{watch_on_text, watch_text};
ghost use Rattle.fleet_flight.specs.Origin.{flown};
ghost use Rattle.fleet_flight.specs.Shadows.{IsWatching, groups_of};
ghost use Rattle.fleet_flight.specs.Watched.{watched};

use crate::checkpoints::{go_on, run_up_to};
use crate::watch::Watch;
use checkpoint_text::Saved;
use command_plans::Trouble;
use fleet_flight::{Begins, WatchedRun};
use fleet_plain::PlainRun;
use node_runner::Scenario;
use sim_io::Sink;
use state_text::StateParts;
use std::alloc::Global;

// Writes what is seen of a run up to the cycle `to`, epoch by epoch, each before the next one is run.
fn write_changes<'n, B: Begins + Drop, O: Sink>(
    mut watching: WatchedRun<B>,
    to: u64,
    out: &mut O,
) -> Result<(), Trouble<'n>>
    requires watching { IsWatching (B.origin watching.from) watching.floor watching.nodes.items watching.log.sends watching.shadows.items }
    requires more { watching.floor ≤ to }
    requires end { to ≤ (B.origin watching.from).topo.limit }
    ensures { Written (changes_text (watched (flown (B.origin watching.from)) (groups_of watching.shadows.items) watching.floor to)) (stream (O.taken out.old) (O.faults out.old)) (stream (O.taken out.new) (O.faults out.new)) result }
{
    while watching.floor < to {
        let Ok(changes) = watching.next(to) else {
            return Err(Trouble::NoMemory);
        };
        match changes_text::write(changes.as_slice(), out) {
            Ok(()) => {}
            Err(_) => return Err(Trouble::OutFailed),
        }
    }
    Ok(())
}

/// Runs a network up to the cycle from which it is watched, and writes what is seen at its places from there on; it goes
/// no further than it is watched.
pub fn write_watch<'n, O: Sink>(
    alloc: Global,
    network: &Scenario,
    watch: &Watch,
    out: &mut O,
) -> Result<(), Trouble<'n>>
    requires { IsWatch network.now watch.now }
    ensures { Written (watch_text network.now watch.now.places.items watch.now.from watch.now.to) (stream (O.taken out.old) (O.faults out.old)) (stream (O.taken out.new) (O.faults out.new)) result }
{
    let Ok(mut run) = PlainRun::new(alloc, network) else {
        return Err(Trouble::NoMemory);
    };
    let Ok(()) = run_up_to(network, &mut run, watch.from) else {
        return Err(Trouble::NoMemory);
    };
    match run.watch(network, &watch.places) {
        Ok(watching) => write_changes(watching, watch.to, out),
        Err(_) => Err(Trouble::NoMemory),
    }
}

/// Goes on with a network from a state up to the cycle from which it is watched, and writes what is seen at its places
/// from there on; it goes no further than it is watched.
pub fn write_watch_on<'n, O: Sink>(
    alloc: Global,
    network: &Scenario,
    state: &StateParts,
    watch: &Watch,
    out: &mut O,
) -> Result<(), Trouble<'n>>
    requires { IsWatchOn network.now state.now watch.now }
    ensures { Written (watch_on_text network.now state.now watch.now.places.items watch.now.from watch.now.to) (stream (O.taken out.old) (O.faults out.old)) (stream (O.taken out.new) (O.faults out.new)) result }
{
    let Ok(mut saved) = Saved::new(alloc, network, state) else {
        return Err(Trouble::NoMemory);
    };
    let Ok(()) = go_on(network, &mut saved, watch.from) else {
        return Err(Trouble::NoMemory);
    };
    match saved.watch(network, &watch.places) {
        Ok(watching) => write_changes(watching, watch.to, out),
        Err(_) => Err(Trouble::NoMemory),
    }
}
