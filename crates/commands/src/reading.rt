// What is read before a job is done.
ghost use Rattle.std.specs.Prelude.{◌≡◌, ◌<◌, ◌≤◌, ◌*◌, map, IfErr, IfOk};
ghost use Rattle.command_words.specs.Words.{IsInLimits, shown};
ghost use Rattle.command_plans.specs.Ends.{reads, stream};
ghost use Rattle.command_plans.specs.Parts.{Stopped};
ghost use Rattle.commands.specs.Plan.{cut_on_plan, cut_plan, network_plan, plan_of};
ghost use Rattle.commands.specs.Parts.{HasGot, HasRead, IsCutOn, JobRead, Prepares};
ghost use Rattle.world_core.specs.Kept.{epoch};
ghost use Rattle.command_words.specs.declared.operands.TheConstants.{MOST_EPOCHS};

use crate::checkpoints::read_saved;
use crate::job::Job;
use crate::looks::{read_look, read_look_on, read_saved_on};
use crate::network::lone_node;
use crate::spans::read_span;
use crate::sweeps::read_sweep;
use crate::watch::Tail;
use crate::watches::{read_watch, read_watch_on, read_watch_sweep};
use checkpoint_text::Saved;
use command_plans::{
    Complaint, StateCause, Status, Trouble, read_image, read_images, read_scenario, read_source,
    tell,
};
use command_words::{Command, read_words};
use node_runner::Scenario;
use sim_io::{Sink, Store};
use state_text::StateFault;
use std::alloc::Global;
use world_core::EPOCH;

/// The network of the scenario in `file`, with the image of each node. Where it is not to be had, `err` has the line
/// that says why, and the answer is the status of the call: that line may name a file of the scenario's own, so it
/// cannot be written later.
pub fn read_network<'w, S: Store, E: Sink>(
    alloc: Global,
    file: &'w str,
    store: &mut S,
    err: &mut E,
) -> Result<Scenario, Status>
    ensures held { S.held store.new ≡ S.held store.old }
    ensures ok { IfOk result (HasRead (S.held store.old) (network_plan file.entry.now)
        (reads (S.faults store.old) (S.failed store.old)) (reads (S.faults store.new) (S.failed store.new))
        (stream (E.taken err.old) (E.faults err.old)) (stream (E.taken err.new) (E.faults err.new))) }
    ensures err { IfErr result (Stopped (S.held store.old) (network_plan file.entry.now)
        (reads (S.faults store.old) (S.failed store.old)) (reads (S.faults store.new) (S.failed store.new))
        (stream (E.taken err.old) (E.faults err.old)) (stream (E.taken err.new) (E.faults err.new))) }
{
    let text = match read_scenario(alloc, file, store) {
        Ok(text) => text,
        Err(trouble) => return Err(tell(err, trouble)),
    };
    match read_images(alloc, text.images.as_slice(), store) {
        Ok(images) => Ok(Scenario::new(text, images)),
        Err(trouble) => Err(tell(err, trouble)),
    }
}

// The network of the scenario in a file, of which a run is cut after so many epochs. Where that is not to be had, or
// these epochs do not end below its limit, `err` has the line that says why, and the answer is the status of the call.
fn read_cut<'w, S: Store, E: Sink>(
    alloc: Global,
    file: &'w str,
    epochs: u64,
    store: &mut S,
    err: &mut E,
) -> Result<Scenario, Status>
    requires few { epochs ≤ MOST_EPOCHS }
    ensures held { S.held store.new ≡ S.held store.old }
    ensures ok { IfOk result (HasRead (S.held store.old) (cut_plan file.entry.now epochs)
        (reads (S.faults store.old) (S.failed store.old)) (reads (S.faults store.new) (S.failed store.new))
        (stream (E.taken err.old) (E.faults err.old)) (stream (E.taken err.new) (E.faults err.new))) }
    ensures within { IfOk result (λ network. epochs * epoch < network.topo.limit) }
    ensures err { IfErr result (Stopped (S.held store.old) (cut_plan file.entry.now epochs)
        (reads (S.faults store.old) (S.failed store.old)) (reads (S.faults store.new) (S.failed store.new))
        (stream (E.taken err.old) (E.faults err.old)) (stream (E.taken err.new) (E.faults err.new))) }
{
    let network = match read_network(alloc, file, store, err) {
        Ok(network) => network,
        Err(status) => return Err(status),
    };
    if epochs * EPOCH < network.lawful_topo().limit() {
        return Ok(network);
    }
    let past_end = StateCause::Faulty(StateFault::PastEnd);
    Err(tell(err, Trouble::Refused(Complaint::BadState(file, past_end))))
}

/// The network of the scenario in a file, and its state in the file `name`, from which a run is cut after so many epochs.
/// Where that is not to be had, or these epochs do not end below the limit, `err` has the line that says why, and the
/// answer is the status of the call.
pub fn read_cut_on<'w, S: Store, E: Sink>(
    alloc: Global,
    file: &'w str,
    epochs: u64,
    name: &'w str,
    store: &mut S,
    err: &mut E,
) -> Result<(Scenario, Saved), Status>
    requires few { epochs ≤ MOST_EPOCHS }
    ensures held { S.held store.new ≡ S.held store.old }
    ensures ok { IfOk result (λ at. HasGot (S.held store.old) (cut_on_plan file.entry.now epochs name.entry.now)
        (reads (S.faults store.old) (S.failed store.old)) (reads (S.faults store.new) (S.failed store.new))
        (stream (E.taken err.old) (E.faults err.old)) (stream (E.taken err.new) (E.faults err.new)) (at.0, at.1.state)) }
    ensures cut { IfOk result (λ at. IsCutOn at.0 at.1 epochs) }
    ensures err { IfErr result (Stopped (S.held store.old) (cut_on_plan file.entry.now epochs name.entry.now)
        (reads (S.faults store.old) (S.failed store.old)) (reads (S.faults store.new) (S.failed store.new))
        (stream (E.taken err.old) (E.faults err.old)) (stream (E.taken err.new) (E.faults err.new))) }
{
    let network = match read_network(alloc, file, store, err) {
        Ok(network) => network,
        Err(status) => return Err(status),
    };
    let saved = match read_saved(alloc, &network, name, store) {
        Ok(saved) => saved,
        Err(trouble) => return Err(tell(err, trouble)),
    };
    let end = saved.cycle() + epochs * EPOCH;
    if end < network.lawful_topo().limit() {
        return Ok((network, saved));
    }
    let past_end = StateCause::Faulty(StateFault::PastEnd);
    Err(tell(err, Trouble::Refused(Complaint::BadState(name, past_end))))
}

// Reads what a command needs. Where that is not to be had, `err` has the line that says why, and the answer is the
// status of the call.
fn read_job<'w, S: Store, E: Sink>(
    alloc: Global,
    command: Command<'w>,
    store: &mut S,
    err: &mut E,
) -> Result<Job, Status>
    requires { IsInLimits (shown command) }
    ensures held { S.held store.new ≡ S.held store.old }
    ensures read { JobRead (S.held store.old) (plan_of (shown command.entry))
        (reads (S.faults store.old) (S.failed store.old)) (reads (S.faults store.new) (S.failed store.new))
        (stream (E.taken err.old) (E.faults err.old)) (stream (E.taken err.new) (E.faults err.new)) result }
{
    match command {
        Command::Run { file } => Ok(Job::Trace(read_network(alloc, file, store, err)?)),
        Command::RunPlain { file } => Ok(Job::PlainTrace(read_network(alloc, file, store, err)?)),
        Command::Monitor { file } => Ok(Job::Monitor(read_network(alloc, file, store, err)?)),
        Command::Sniff { file } => Ok(Job::Sniff(read_network(alloc, file, store, err)?)),
        Command::Check { file } => Ok(Job::Check(read_network(alloc, file, store, err)?)),
        Command::Node { file, cycles } => match read_image(alloc, file, store) {
            Ok(flash) => match lone_node(alloc, flash, cycles) {
                Ok(network) => Ok(Job::PlainTrace(network)),
                Err(_) => Err(tell(err, Trouble::NoMemory)),
            },
            Err(trouble) => Err(tell(err, trouble)),
        },
        Command::Disasm { file } => match read_image(alloc, file, store) {
            Ok(flash) => Ok(Job::Disasm(flash)),
            Err(trouble) => Err(tell(err, trouble)),
        },
        Command::Asm { file } => match read_source(alloc, file, store) {
            Ok(words) => Ok(Job::Asm(words)),
            Err(trouble) => Err(tell(err, trouble)),
        },
        Command::Make { number } => Ok(Job::Make(number)),
        Command::Head { file, epochs } => {
            let network = read_cut(alloc, file, epochs, store, err)?;
            Ok(Job::Head(network, epochs))
        }
        Command::Save { file, epochs } => {
            let network = read_cut(alloc, file, epochs, store, err)?;
            Ok(Job::Save(network, epochs * EPOCH))
        }
        Command::Resume { file, state } => {
            let network = read_network(alloc, file, store, err)?;
            match read_saved(alloc, &network, state, store) {
                Ok(saved) => Ok(Job::Resume(network, saved)),
                Err(trouble) => Err(tell(err, trouble)),
            }
        }
        Command::HeadOn {
            file,
            epochs,
            state,
        } => {
            let (network, saved) = read_cut_on(alloc, file, epochs, state, store, err)?;
            Ok(Job::HeadOn(network, saved, epochs))
        }
        Command::SaveOn {
            file,
            epochs,
            state,
        } => {
            let (network, saved) = read_saved_on(alloc, file, epochs, state, store, err)?;
            Ok(Job::SaveOn(network, saved))
        }
        Command::Look { file, cycle } => {
            let network = read_look(alloc, file, cycle, store, err)?;
            Ok(Job::Save(network, cycle))
        }
        Command::LookOn { file, cycle, state } => {
            let (network, saved) = read_look_on(alloc, file, cycle, state, store, err)?;
            Ok(Job::SaveOn(network, saved))
        }
        Command::MonitorSpan { file, from, to } => {
            let network = read_span(alloc, file, from, to, store, err)?;
            Ok(Job::Monitor(network))
        }
        Command::Sweep { file, state, moves } => {
            let ((network, state), moves) = read_sweep(alloc, file, state, moves, store, err)?;
            Ok(Job::Sweep(network, state, moves, Tail::Trace))
        }
        Command::Watch {
            file,
            from,
            to,
            places,
        } => {
            let (network, watch) = read_watch(alloc, file, from, to, places, store, err)?;
            Ok(Job::Watch(network, watch))
        }
        Command::WatchOn {
            file,
            from,
            to,
            places,
            state,
        } => {
            let ((network, watch), state) = read_watch_on(
                alloc, file, from, to, places, state, store, err,
            )?;
            Ok(Job::WatchOn(network, state, watch))
        }
        Command::WatchSweep {
            file,
            from,
            to,
            places,
            state,
            moves,
        } => {
            let (((network, watch), state), moves) = read_watch_sweep(
                alloc, file, from, to, places, state, moves, store, err,
            )?;
            Ok(Job::Sweep(network, state, moves, Tail::Watch(watch)))
        }
    }
}

/// What the words ask for, with all that it needs read: a scenario first, then the image of each node in order of
/// number. Where they ask for nothing, or that is not to be had, `err` has the line that says so, and the answer is the
/// status of the call.
pub fn prepare<'w, S: Store, E: Sink>(
    alloc: Global,
    words: &'w [&'w str],
    store: &mut S,
    err: &mut E,
) -> Result<Job, Status>
    ensures { Prepares (S.held store.old) (S.held store.new) (map (λ w. w.now) words.entry.now)
        (reads (S.faults store.old) (S.failed store.old)) (reads (S.faults store.new) (S.failed store.new))
        (stream (E.taken err.old) (E.faults err.old)) (stream (E.taken err.new) (E.faults err.new)) result }
{
    match read_words(alloc, words) {
        Ok(Some(command)) => read_job(alloc, command, store, err),
        Ok(None) => Err(tell(err, Trouble::Refused(Complaint::BadWords))),
        Err(_) => Err(tell(err, Trouble::NoMemory)),
    }
}
