// `look`, and `save` from a state: what is read for them, and the run from a state up to the cycle of which they write the
// state.
ghost use Rattle.std.specs.Prelude.{◌≡◌, ◌≤◌, IfErr, IfOk};
ghost use Rattle.command_plans.specs.Ends.{reads, stream};
ghost use Rattle.command_plans.specs.Parts.{Stopped};
ghost use Rattle.commands.specs.Parts.{HasCome, HasGot, HasRead, IsLookOn};
ghost use Rattle.commands.specs.Plan.{look_from_plan, look_on_plan, look_plan, save_on_plan};
ghost use Rattle.commands.specs.Texts.{look_on_text};
ghost use Rattle.command_words.specs.declared.operands.TheConstants.{MOST_EPOCHS};

use crate::checkpoints::{come_to, read_saved};
use crate::reading::{read_cut_on, read_network};
use checkpoint_text::Saved;
use command_plans::{Complaint, StateCause, Status, Trouble, tell};
use node_runner::Scenario;
use sim_io::{Sink, Store};
use state_text::StateFault;
use std::alloc::Global;
use world_core::EPOCH;

/// The network of the scenario in a file, of which the state is to be written as `cycle` begins. Where that is not to be
/// had, or the cycle lies behind the limit, `err` has the line that says why, and the answer is the status of the call.
pub fn read_look<'w, S: Store, E: Sink>(
    alloc: Global,
    file: &'w str,
    cycle: u64,
    store: &mut S,
    err: &mut E,
) -> Result<Scenario, Status>
    ensures held { S.held store.new ≡ S.held store.old }
    ensures ok { IfOk result (HasRead (S.held store.old) (look_plan file.entry.now cycle)
        (reads (S.faults store.old) (S.failed store.old)) (reads (S.faults store.new) (S.failed store.new))
        (stream (E.taken err.old) (E.faults err.old)) (stream (E.taken err.new) (E.faults err.new))) }
    ensures within { IfOk result (λ network. cycle ≤ network.topo.limit) }
    ensures err { IfErr result (Stopped (S.held store.old) (look_plan file.entry.now cycle)
        (reads (S.faults store.old) (S.failed store.old)) (reads (S.faults store.new) (S.failed store.new))
        (stream (E.taken err.old) (E.faults err.old)) (stream (E.taken err.new) (E.faults err.new))) }
{
    let network = match read_network(alloc, file, store, err) {
        Ok(network) => network,
        Err(status) => return Err(status),
    };
    if cycle <= network.lawful_topo().limit() {
        return Ok(network);
    }
    let past_end = StateCause::Faulty(StateFault::PastEnd);
    Err(tell(err, Trouble::Refused(Complaint::BadState(file, past_end))))
}

// The network of the scenario in a file, and its state in the file `name`, from which a run goes on up to the cycle
// `cycle`. Where that is not to be had, or the cycle lies before the state's or behind the limit, `err` has the line that
// says why, and the answer is the status of the call.
fn read_look_from<'w, S: Store, E: Sink>(
    alloc: Global,
    file: &'w str,
    cycle: u64,
    name: &'w str,
    store: &mut S,
    err: &mut E,
) -> Result<(Scenario, Saved), Status>
    ensures held { S.held store.new ≡ S.held store.old }
    ensures ok { IfOk result (λ at. HasGot (S.held store.old) (look_from_plan file.entry.now cycle name.entry.now)
        (reads (S.faults store.old) (S.failed store.old)) (reads (S.faults store.new) (S.failed store.new))
        (stream (E.taken err.old) (E.faults err.old)) (stream (E.taken err.new) (E.faults err.new)) (at.0, at.1.state)) }
    ensures look { IfOk result (λ at. IsLookOn at.0 at.1 cycle) }
    ensures err { IfErr result (Stopped (S.held store.old) (look_from_plan file.entry.now cycle name.entry.now)
        (reads (S.faults store.old) (S.failed store.old)) (reads (S.faults store.new) (S.failed store.new))
        (stream (E.taken err.old) (E.faults err.old)) (stream (E.taken err.new) (E.faults err.new))) }
{
    let network = match read_network(alloc, file, store, err) {
        Ok(network) => network,
        Err(status) => return Err(status),
    };
    let saved = match read_saved(alloc, &network, name, store) {
        Ok(saved) => saved,
        Err(trouble) => return Err(tell(err, trouble)),
    };
    if cycle < saved.cycle() {
        let past_cycle = StateCause::PastCycle;
        return Err(tell(err, Trouble::Refused(Complaint::BadState(name, past_cycle))));
    }
    if cycle <= network.lawful_topo().limit() {
        return Ok((network, saved));
    }
    let past_end = StateCause::Faulty(StateFault::PastEnd);
    Err(tell(err, Trouble::Refused(Complaint::BadState(name, past_end))))
}

/// The network of the scenario in a file, and its run from the state in the file `name`, which has come to the cycle
/// `cycle`. Where that is not to be had, or its state then cannot be written, `err` has the line that says why, and the
/// answer is the status of the call.
pub fn read_look_on<'w, S: Store, E: Sink>(
    alloc: Global,
    file: &'w str,
    cycle: u64,
    name: &'w str,
    store: &mut S,
    err: &mut E,
) -> Result<(Scenario, Saved), Status>
    ensures held { S.held store.new ≡ S.held store.old }
    ensures ok { IfOk result (λ at. HasGot (S.held store.old) (look_on_plan file.entry.now cycle name.entry.now)
        (reads (S.faults store.old) (S.failed store.old)) (reads (S.faults store.new) (S.failed store.new))
        (stream (E.taken err.old) (E.faults err.old)) (stream (E.taken err.new) (E.faults err.new)) (look_on_text at.0 at.1.state at.1.floor)) }
    ensures come { IfOk result (λ at. HasCome at.0 at.1) }
    ensures err { IfErr result (Stopped (S.held store.old) (look_on_plan file.entry.now cycle name.entry.now)
        (reads (S.faults store.old) (S.failed store.old)) (reads (S.faults store.new) (S.failed store.new))
        (stream (E.taken err.old) (E.faults err.old)) (stream (E.taken err.new) (E.faults err.new))) }
{
    let (network, saved) = match read_look_from(alloc, file, cycle, name, store, err) {
        Ok(at) => at,
        Err(status) => return Err(status),
    };
    match come_to(&network, saved, cycle, name) {
        Ok(come) => Ok((network, come)),
        Err(trouble) => Err(tell(err, trouble)),
    }
}

/// The network of the scenario in a file, and its run from the state in the file `name`, which has come so many epochs
/// further. Where that is not to be had, or its state then cannot be written, `err` has the line that says why, and the
/// answer is the status of the call.
pub fn read_saved_on<'w, S: Store, E: Sink>(
    alloc: Global,
    file: &'w str,
    epochs: u64,
    name: &'w str,
    store: &mut S,
    err: &mut E,
) -> Result<(Scenario, Saved), Status>
    requires few { epochs ≤ MOST_EPOCHS }
    ensures held { S.held store.new ≡ S.held store.old }
    ensures ok { IfOk result (λ at. HasGot (S.held store.old) (save_on_plan file.entry.now epochs name.entry.now)
        (reads (S.faults store.old) (S.failed store.old)) (reads (S.faults store.new) (S.failed store.new))
        (stream (E.taken err.old) (E.faults err.old)) (stream (E.taken err.new) (E.faults err.new)) (look_on_text at.0 at.1.state at.1.floor)) }
    ensures come { IfOk result (λ at. HasCome at.0 at.1) }
    ensures err { IfErr result (Stopped (S.held store.old) (save_on_plan file.entry.now epochs name.entry.now)
        (reads (S.faults store.old) (S.failed store.old)) (reads (S.faults store.new) (S.failed store.new))
        (stream (E.taken err.old) (E.faults err.old)) (stream (E.taken err.new) (E.faults err.new))) }
{
    let (network, saved) = match read_cut_on(alloc, file, epochs, name, store, err) {
        Ok(at) => at,
        Err(status) => return Err(status),
    };
    let end = saved.cycle() + epochs * EPOCH;
    match come_to(&network, saved, end, name) {
        Ok(come) => Ok((network, come)),
        Err(trouble) => Err(tell(err, trouble)),
    }
}
