// `monitor FILE FROM TO`: the network of a scenario with other cycles in place of its window.
ghost use Rattle.std.specs.Prelude.{◌≡◌, ◌≤◌, IfErr, IfOk};
ghost use Rattle.command_plans.specs.Ends.{reads, stream};
ghost use Rattle.command_plans.specs.Parts.{Stopped};
ghost use Rattle.commands.specs.Parts.{HasRead};
ghost use Rattle.commands.specs.Plan.{span_plan};

use command_plans::{Complaint, ScenarioCause, Status, Trouble, read_images, read_scenario, tell};
use node_runner::Scenario;
use scenario_file::ScenarioFault;
use sim_io::{Sink, Store};
use std::alloc::Global;

/// The network of the scenario in `file` whose window are the cycles from `from` on and below `to`, as many as its run
/// has: where they end behind its run it is refused, before any image is read, as it would be with such a window. Where
/// the network is not to be had, `err` has the line that says why, and the answer is the status of the call.
pub fn read_span<'w, S: Store, E: Sink>(
    alloc: Global,
    file: &'w str,
    from: u64,
    to: u64,
    store: &mut S,
    err: &mut E,
) -> Result<Scenario, Status>
    requires rises { from ≤ to }
    ensures held { S.held store.new ≡ S.held store.old }
    ensures ok { IfOk result (HasRead (S.held store.old) (span_plan file.entry.now from to)
        (reads (S.faults store.old) (S.failed store.old)) (reads (S.faults store.new) (S.failed store.new))
        (stream (E.taken err.old) (E.faults err.old)) (stream (E.taken err.new) (E.faults err.new))) }
    ensures err { IfErr result (Stopped (S.held store.old) (span_plan file.entry.now from to)
        (reads (S.faults store.old) (S.failed store.old)) (reads (S.faults store.new) (S.failed store.new))
        (stream (E.taken err.old) (E.faults err.old)) (stream (E.taken err.new) (E.faults err.new))) }
{
    let mut text = match read_scenario(alloc, file, store) {
        Ok(text) => text,
        Err(trouble) => return Err(tell(err, trouble)),
    };
    if text.topo.limit() < to {
        let past_end = ScenarioCause::Faulty(ScenarioFault::OutOfRange);
        return Err(tell(
            err,
            Trouble::Refused(Complaint::BadScenario(file, past_end)),
        ));
    }
    text.window = (from, to);
    match read_images(alloc, text.images.as_slice(), store) {
        Ok(images) => Ok(Scenario::new(text, images)),
        Err(trouble) => Err(tell(err, trouble)),
    }
}
