// Saved states: one is read from its text, written as text (`save` and `look`), and gone on from (`resume`, and these
// and `head` from a state).
ghost use Rattle.std.specs.Prelude.{◌≡◌, ◌≤◌, ◌+◌, ◌*◌, false, IfOk, OnOk};
ghost use Rattle.checkpoint_text.specs.Onward.{CanResume, onward};
ghost use Rattle.command_plans.specs.Ends.{Reads, reads, stream};
ghost use Rattle.command_plans.specs.Parts.{ReadAs, Written};
ghost use Rattle.command_plans.specs.Reading.{Files};
ghost use Rattle.commands.specs.Parts.{EndsFrom, HasCome, IsCutOn, IsFresh, IsLookOn};
ghost use Rattle.commands.specs.Plan.{come_or, state_plan};
ghost use Rattle.commands.specs.Texts.{look_on_text, look_text};
ghost use Rattle.world_core.specs.Kept.{epoch};
ghost use Rattle.fleet_flight.specs.Rows.{rows_upto};
ghost use Rattle.trace_writer.specs.Line.{rows_text};
ghost use Rattle.world_core.specs.Order.{run_rows, world_at};

use avr_base::NoMemory;
use checkpoint_text::{Saved, read_parts, read_state, write_onward_state, write_state};
use command_plans::{Complaint, MOST_STATE_BYTES, StateCause, Trouble, read_file};
use fleet_plain::PlainRun;
use node_runner::Scenario;
use sim_io::{Sink, Store};
use state_text::{StateFault, StateParts};
use std::alloc::Global;
use world_core::EPOCH;

/// The saved state of a network in the file `name`, which has at most 4,194,304 bytes of text.
pub fn read_saved<'n, S: Store>(
    alloc: Global,
    network: &Scenario,
    name: &'n str,
    store: &mut S,
) -> Result<Saved, Trouble<'n>>
    ensures held { S.held store.new ≡ S.held store.old }
    ensures fresh { IfOk result (λ saved. IsFresh network.now saved) }
    ensures read { ReadAs (S.held store.old) (state_plan network.now name.entry.now) (λ saved. saved.state)
        (reads (S.faults store.old) (S.failed store.old)) (reads (S.faults store.new) (S.failed store.new)) result }
{
    let too_long = Complaint::BadState(name, StateCause::TooLong);
    let read = match read_file(alloc, name, MOST_STATE_BYTES, too_long, store) {
        Ok(bytes) => read_state(alloc, network, bytes.as_slice()),
        Err(trouble) => return Err(trouble),
    };
    match read {
        Ok(saved) => Ok(saved),
        Err(StateFault::NoMemory) => Err(Trouble::NoMemory),
        Err(fault) => Err(Trouble::Refused(Complaint::BadState(name, StateCause::Faulty(fault)))),
    }
}

/// The saved state of a network in the file `name`, as [`read_saved`] reads it, as plain data.
pub fn read_state_parts<'n, S: Store>(
    alloc: Global,
    network: &Scenario,
    name: &'n str,
    store: &mut S,
) -> Result<StateParts, Trouble<'n>>
    ensures held { S.held store.new ≡ S.held store.old }
    ensures fit { IfOk result (λ state. CanResume network.now state) }
    ensures read { ReadAs (S.held store.old) (state_plan network.now name.entry.now) (λ state. state)
        (reads (S.faults store.old) (S.failed store.old)) (reads (S.faults store.new) (S.failed store.new)) result }
{
    let too_long = Complaint::BadState(name, StateCause::TooLong);
    let read = match read_file(alloc, name, MOST_STATE_BYTES, too_long, store) {
        Ok(bytes) => read_parts(alloc, network, bytes.as_slice()),
        Err(trouble) => return Err(trouble),
    };
    match read {
        Ok(state) => Ok(state),
        Err(StateFault::NoMemory) => Err(Trouble::NoMemory),
        Err(fault) => Err(Trouble::Refused(Complaint::BadState(name, StateCause::Faulty(fault)))),
    }
}

/// Runs a network that has not begun up to the cycle `end`.
pub fn run_up_to(network: &Scenario, run: &mut PlainRun, end: u64) -> Result<(), NoMemory>
    requires first { run.old ≡ record { scenario = network.now; floor = 0; failed = false } }
    requires to { end ≤ network.now.topo.limit }
    ensures { OnOk result (run.new ≡ record { scenario = network.now; floor = end; failed = false }) }
{
    while run.floor() < end {
        run.pass(network, end)?;
    }
    Ok(())
}

/// Runs a network up to the cycle `cycle`, and writes the state in which it is as that begins.
pub fn write_saved<'n, O: Sink>(
    alloc: Global,
    network: &Scenario,
    cycle: u64,
    out: &mut O,
) -> Result<(), Trouble<'n>>
    requires { cycle ≤ network.now.topo.limit }
    ensures { Written (look_text network.now cycle) (stream (O.taken out.old) (O.faults out.old)) (stream (O.taken out.new) (O.faults out.new)) result }
{
    let Ok(mut run) = PlainRun::new(alloc, network) else {
        return Err(Trouble::NoMemory);
    };
    let Ok(()) = run_up_to(network, &mut run, cycle) else {
        return Err(Trouble::NoMemory);
    };
    let Ok(sends) = run.sends(network) else {
        return Err(Trouble::NoMemory);
    };
    match write_state(network, cycle, run.nodes(), sends.as_slice(), out) {
        Ok(()) => Ok(()),
        Err(_) => Err(Trouble::OutFailed),
    }
}

/// Goes on with a network from a saved state, with which nothing was done yet, up to the cycle `end`.
pub fn go_on(network: &Scenario, saved: &mut Saved, end: u64) -> Result<(), NoMemory>
    requires look { IsLookOn network.now saved.old end }
    ensures { OnOk result (saved.new ≡ record { scenario = network.now; state = saved.old.state; floor = end; failed = false }) }
{
    while saved.cycle() < end {
        saved.pass(network, end)?;
    }
    Ok(())
}

/// Goes on with a network from the saved state in the file `name`, with which nothing was done yet, up to the cycle
/// `end`. Where a node has executed more instructions then than a state can say, that state is refused.
pub fn come_to<'w>(
    network: &Scenario,
    mut saved: Saved,
    end: u64,
    name: &'w str,
) -> Result<Saved, Trouble<'w>>
    requires { IsLookOn network.now saved end }
    ensures come { IfOk result (λ come. come ≡ record { scenario = network.now; state = saved.state; floor = end; failed = false }) }
    ensures read { (files : Files) (store : Reads) → ReadAs files (come_or name.entry.now network.now saved.state end) (λ come. look_on_text network.now saved.state end) store store result }
{
    let Ok(()) = go_on(network, &mut saved, end) else {
        return Err(Trouble::NoMemory);
    };
    if saved.counts_fit() {
        return Ok(saved);
    }
    let too_many = StateCause::TooMany;
    Err(Trouble::Refused(Complaint::BadState(name, too_many)))
}

/// Writes the state to which a run from a saved state has come.
pub fn write_reached<'n, O: Sink>(
    network: &Scenario,
    saved: &Saved,
    out: &mut O,
) -> Result<(), Trouble<'n>>
    requires { HasCome network.now saved.now }
    ensures { Written (look_on_text network.now saved.now.state saved.now.floor) (stream (O.taken out.old) (O.faults out.old)) (stream (O.taken out.new) (O.faults out.new)) result }
{
    let Ok(sends) = saved.sends(network) else {
        return Err(Trouble::NoMemory);
    };
    match write_onward_state(saved, sends.as_slice(), out) {
        Ok(()) => Ok(()),
        Err(_) => Err(Trouble::OutFailed),
    }
}

// Goes on with a network from a saved state, with which nothing was done yet, up to the cycle `end`, where one of its
// epochs ends, and writes the rows of each epoch before the next one is run.
fn write_rows_to<'n, O: Sink>(
    network: &Scenario,
    mut saved: Saved,
    end: u64,
    out: &mut O,
) -> Result<(), Trouble<'n>>
    requires fresh { IsFresh network.now saved }
    requires end { EndsFrom network.now saved.state.cycle end }
    ensures { Written (rows_text (rows_upto (onward network.now saved.state) end)) (stream (O.taken out.old) (O.faults out.old)) (stream (O.taken out.new) (O.faults out.new)) result }
{
    while saved.cycle() < end {
        let Ok(rows) = saved.epoch(network) else {
            return Err(Trouble::NoMemory);
        };
        match trace_writer::write(rows.as_slice(), out) {
            Ok(()) => {}
            Err(_) => return Err(Trouble::OutFailed),
        }
    }
    Ok(())
}

/// Goes on with a network from a saved state, with which nothing was done yet, over so many epochs, which end below its
/// limit, and writes their rows; it goes no further.
pub fn write_head_on<'n, O: Sink>(
    network: &Scenario,
    saved: Saved,
    epochs: u64,
    out: &mut O,
) -> Result<(), Trouble<'n>>
    requires { IsCutOn network.now saved epochs }
    ensures { Written (rows_text (world_at (onward network.now saved.state) (saved.state.cycle + epochs * epoch)).rows) (stream (O.taken out.old) (O.faults out.old)) (stream (O.taken out.new) (O.faults out.new)) result }
{
    let end = saved.cycle() + epochs * EPOCH;
    write_rows_to(network, saved, end, out)
}

/// Goes on with a network from a saved state, with which nothing was done yet, up to the limit, and writes the rows of
/// each epoch before the next one is run.
pub fn write_onward<'n, O: Sink>(
    network: &Scenario,
    saved: Saved,
    out: &mut O,
) -> Result<(), Trouble<'n>>
    requires { IsFresh network.now saved }
    ensures { Written (rows_text (run_rows (onward network.now saved.state))) (stream (O.taken out.old) (O.faults out.old)) (stream (O.taken out.new) (O.faults out.new)) result }
{
    write_rows_to(network, saved, network.lawful_topo().limit(), out)
}
