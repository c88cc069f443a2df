// `sweep`, and `watch` over moves: many runs of one network from one state on, each with another input at a node.
ghost use Rattle.std.specs.Prelude.{◌≡◌, ◌<◌, IfErr, IfOk};
ghost use Rattle.checkpoint_text.specs.Onward.{CanResume, onward};
ghost use Rattle.command_plans.specs.Ends.{reads, stream};
ghost use Rattle.command_plans.specs.Parts.{Stopped, Written};
ghost use Rattle.commands.specs.Parts.{HasGot, IsSweep, IsTail, IsTailed};
ghost use Rattle.commands.specs.Plan.{begun_plan, sweep_plan};
ghost use Rattle.commands.specs.Tails.{moved_text, tail_text, tails_text};
ghost use Rattle.trace_writer.specs.Line.{rows_text};
ghost use Rattle.world_core.specs.Order.{run_rows};

use crate::checkpoints::{read_state_parts, write_onward};
use crate::reading::read_network;
use crate::watch::Tail;
use crate::watching::write_watch_on;
use checkpoint_text::Saved;
use command_plans::{Status, Trouble, read_moves, tell};
use moves_text::Move;
use node_runner::Scenario;
use sim_io::{Sink, Store};
use state_text::StateParts;
use std::alloc::Global;

// The network of the scenario in `file`, and its state in the file `name`. Where they are not to be had, `err` has the
// line that says why, and the answer is the status of the call.
fn read_begun<'w, S: Store, E: Sink>(
    alloc: Global,
    file: &'w str,
    name: &'w str,
    store: &mut S,
    err: &mut E,
) -> Result<(Scenario, StateParts), Status>
    ensures held { S.held store.new ≡ S.held store.old }
    ensures ok { IfOk result (λ begun. HasGot (S.held store.old) (begun_plan file.entry.now name.entry.now)
        (reads (S.faults store.old) (S.failed store.old)) (reads (S.faults store.new) (S.failed store.new))
        (stream (E.taken err.old) (E.faults err.old)) (stream (E.taken err.new) (E.faults err.new)) begun) }
    ensures fit { IfOk result (λ begun. CanResume begun.0 begun.1) }
    ensures err { IfErr result (Stopped (S.held store.old) (begun_plan file.entry.now name.entry.now)
        (reads (S.faults store.old) (S.failed store.old)) (reads (S.faults store.new) (S.failed store.new))
        (stream (E.taken err.old) (E.faults err.old)) (stream (E.taken err.new) (E.faults err.new))) }
{
    let network = match read_network(alloc, file, store, err) {
        Ok(network) => network,
        Err(status) => return Err(status),
    };
    match read_state_parts(alloc, &network, name, store) {
        Ok(state) => Ok((network, state)),
        Err(trouble) => Err(tell(err, trouble)),
    }
}

/// What a sweep needs: the network of the scenario in `file`, its state in the file `state`, and the moves in the file
/// `moves`, each read and accepted before the next is read. Where that is not to be had, `err` has the line that says
/// why, and the answer is the status of the call.
pub fn read_sweep<'w, S: Store, E: Sink>(
    alloc: Global,
    file: &'w str,
    state: &'w str,
    moves: &'w str,
    store: &mut S,
    err: &mut E,
) -> Result<((Scenario, StateParts), Vec<Move>), Status>
    ensures held { S.held store.new ≡ S.held store.old }
    ensures ok { IfOk result (λ it. HasGot (S.held store.old) (sweep_plan file.entry.now state.entry.now moves.entry.now)
        (reads (S.faults store.old) (S.failed store.old)) (reads (S.faults store.new) (S.failed store.new))
        (stream (E.taken err.old) (E.faults err.old)) (stream (E.taken err.new) (E.faults err.new)) (it.0, it.1.items)) }
    ensures fit { IfOk result (λ it. IsSweep it.0.0 it.0.1 it.1.items) }
    ensures err { IfErr result (Stopped (S.held store.old) (sweep_plan file.entry.now state.entry.now moves.entry.now)
        (reads (S.faults store.old) (S.failed store.old)) (reads (S.faults store.new) (S.failed store.new))
        (stream (E.taken err.old) (E.faults err.old)) (stream (E.taken err.new) (E.faults err.new))) }
{
    let begun = match read_begun(alloc, file, state, store, err) {
        Ok(begun) => begun,
        Err(status) => return Err(status),
    };
    let nodes = begun.0.lawful_topo().nodes();
    match read_moves(alloc, nodes, moves, store) {
        Ok(moves) => Ok((begun, moves)),
        Err(trouble) => Err(tell(err, trouble)),
    }
}

// Goes on with a network from a state up to the limit, and writes the rows of each epoch before the next one is run.
fn write_from<'n, O: Sink>(
    alloc: Global,
    network: &Scenario,
    state: &StateParts,
    out: &mut O,
) -> Result<(), Trouble<'n>>
    requires { CanResume network.now state.now }
    ensures { Written (rows_text (run_rows (onward network.now state.now))) (stream (O.taken out.old) (O.faults out.old)) (stream (O.taken out.new) (O.faults out.new)) result }
{
    match Saved::new(alloc, network, state) {
        Ok(saved) => write_onward(network, saved, out),
        Err(_) => Err(Trouble::NoMemory),
    }
}

// Goes on with a network from a state, and writes what is asked for of the run.
fn write_tail<'n, O: Sink>(
    alloc: Global,
    network: &Scenario,
    state: &StateParts,
    tail: &Tail,
    out: &mut O,
) -> Result<(), Trouble<'n>>
    requires fit { CanResume network.now state.now }
    requires tail { IsTail network.now state.now tail.now }
    ensures { Written (tail_text tail.now network.now state.now) (stream (O.taken out.old) (O.faults out.old)) (stream (O.taken out.new) (O.faults out.new)) result }
{
    match tail {
        Tail::Trace => write_from(alloc, network, state, out),
        Tail::Watch(watch) => write_watch_on(alloc, network, state, watch, out),
    }
}

// Goes on with a network from a state, with what a move says in place of a node's own input, and writes what is asked for
// of the run. The network then has its own input again.
fn write_run<'n, O: Sink>(
    alloc: Global,
    network: &mut Scenario,
    state: &StateParts,
    one: &Move,
    tail: &Tail,
    out: &mut O,
) -> Result<(), Trouble<'n>>
    requires fit { CanResume network.old state.now }
    requires known { one.now.node < network.old.topo.nodes }
    requires tail { IsTail network.old state.now tail.now }
    ensures written { Written (moved_text tail.now network.old state.now one.now) (stream (O.taken out.old) (O.faults out.old)) (stream (O.taken out.new) (O.faults out.new)) result }
    ensures same { network.new ≡ network.old }
{
    let node = one.node();
    let Ok(script) = one.script() else {
        return Err(Trouble::NoMemory);
    };
    let own = network.swap_script(node, script);
    let outcome = write_tail(alloc, network, state, tail, out);
    let _ = network.swap_script(node, own);
    outcome
}

/// Goes on with a network from one state again and again, once for each of these moves, and writes what is asked for of
/// each run, one behind another, epoch by epoch before the next one is run.
pub fn write_sweep<'n, O: Sink>(
    alloc: Global,
    mut network: Scenario,
    state: &StateParts,
    moves: &[Move],
    tail: &Tail,
    out: &mut O,
) -> Result<(), Trouble<'n>>
    requires { IsTailed network state.now moves.now tail.now }
    ensures { Written (tails_text tail.now network state.now moves.now) (stream (O.taken out.old) (O.faults out.old)) (stream (O.taken out.new) (O.faults out.new)) result }
{
    for one in moves {
        match write_run(alloc, &mut network, state, one, tail, out) {
            Ok(()) => {}
            Err(trouble) => return Err(trouble),
        }
    }
    Ok(())
}
