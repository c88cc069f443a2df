// What is left to do once all files of a call are read.
ghost use Rattle.command_plans.specs.Ends.{stream};
ghost use Rattle.command_plans.specs.Parts.{Written};
ghost use Rattle.commands.specs.Parts.{IsShort, output};

use crate::checkpoints::{write_head_on, write_onward, write_reached, write_saved};
use crate::frames::write_frames;
use crate::image::write_program;
use crate::listing::write_listing;
use crate::network::write_size;
use crate::profiles::write_profiles;
use crate::sample::write_sample;
use crate::sweeps::write_sweep;
use crate::trace::{write_head, write_trace};
use crate::watch::{Tail, Watch};
use crate::watching::{write_watch, write_watch_on};
use checkpoint_text::Saved;
use command_plans::Trouble;
use ihex_loader::Flash;
use moves_text::Move;
use node_runner::Scenario;
use sim_io::Sink;
use state_text::StateParts;
use std::alloc::Global;

/// What a call is to do once all its files are read and accepted: each is called after its command, but for those that
/// write the whole trace of a network, `run` (`Trace`) and `run --plain` and `node` (`PlainTrace`).
pub enum Job {
    /// To write the trace of this network.
    Trace(Scenario),
    /// To write the trace of this network, run on one thread.
    PlainTrace(Scenario),
    /// To write the profile of each node of this network.
    Monitor(Scenario),
    /// To write the frames that the nodes of this network send.
    Sniff(Scenario),
    /// To write how large this network is.
    Check(Scenario),
    /// To write the listing of this image.
    Disasm(Flash),
    /// To write the program of these words as an image.
    Asm(Vec<u16>),
    /// To write what comes out of the sample of this number.
    Make(u16),
    /// To write the trace of the first epochs of this network, so many.
    Head(Scenario, u64),
    /// To write the state in which this network is as this cycle begins: for `save` and `look`.
    Save(Scenario, u64),
    /// To write the trace of this network from a saved state on.
    Resume(Scenario, Saved),
    /// To write the trace of so many epochs of this network from a saved state on.
    HeadOn(Scenario, Saved, u64),
    /// To write the state to which this network has come from a saved state: for `save` and `look`.
    SaveOn(Scenario, Saved),
    /// To write this of the runs of this network from a state on, one for each of these moves.
    Sweep(Scenario, StateParts, Vec<Move>, Tail),
    /// To write what is seen at places of this network.
    Watch(Scenario, Watch),
    /// To write what is seen at places of this network from a state on.
    WatchOn(Scenario, StateParts, Watch),
}

/// Does a job on one thread.
#[tactic(auto, unfolding(crate::specs::Parts::output))]
pub fn do_job<'n, O: Sink>(alloc: Global, job: Job, out: &mut O) -> Result<(), Trouble<'n>>
    requires { IsShort job }
    ensures { Written (output job) (stream (O.taken out.old) (O.faults out.old)) (stream (O.taken out.new) (O.faults out.new)) result }
{
    match job {
        Job::Trace(network) => write_trace(alloc, &network, out),
        Job::PlainTrace(network) => write_trace(alloc, &network, out),
        Job::Monitor(network) => write_profiles(alloc, &network, out),
        Job::Sniff(network) => write_frames(alloc, &network, out),
        Job::Check(network) => write_size(&network, out),
        Job::Disasm(flash) => write_listing(&flash, out),
        Job::Asm(words) => write_program(alloc, words.as_slice(), out),
        Job::Make(number) => write_sample(alloc, number, out),
        Job::Head(network, epochs) => write_head(alloc, &network, epochs, out),
        Job::Save(network, cycle) => write_saved(alloc, &network, cycle, out),
        Job::Resume(network, saved) => write_onward(&network, saved, out),
        Job::HeadOn(network, saved, epochs) => write_head_on(&network, saved, epochs, out),
        Job::SaveOn(network, saved) => write_reached(&network, &saved, out),
        Job::Sweep(network, state, moves, tail) => {
            write_sweep(alloc, network, &state, moves.as_slice(), &tail, out)
        }
        Job::Watch(network, watch) => write_watch(alloc, &network, &watch, out),
        Job::WatchOn(network, state, watch) => write_watch_on(alloc, &network, &state, &watch, out),
    }
}
