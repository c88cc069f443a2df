// The jobs in which each node has a thread of its own: `run` and `make`.
ghost use Rattle.command_plans.specs.Ends.{stream};
ghost use Rattle.command_plans.specs.Parts.{Written};
ghost use Rattle.commands.specs.Network.{trace_of};
ghost use Rattle.commands.specs.Parts.{IsShort, output};
ghost use Rattle.commands.specs.Sample.{sample_line};

use crate::job::{Job, do_job};
use crate::sample::{NODES, write_counts};
use command_plans::Trouble;
use fleet_threads::{Gate, ThreadRun, run_threads};
use node_runner::Scenario;
use sim_io::Sink;
use std::alloc::Global;
use std::sync::Wait;
use std::thread::Threads;

// Runs a network, each node on a thread of its own, and writes its trace: the rows of each epoch before the next one is
// run.
fn write_trace<'n, R: Threads + Wait + Sync, O: Sink, G: Gate + Sync>(
    rt: &R,
    alloc: Global,
    network: &Scenario,
    out: &mut O,
    gate: &G,
) -> Result<(), Trouble<'n>>
    ensures { Written (trace_of network.now) (stream (O.taken out.old) (O.faults out.old)) (stream (O.taken out.new) (O.faults out.new)) result }
{
    let Ok(mut run) = ThreadRun::new(alloc, network) else {
        return Err(Trouble::NoMemory);
    };
    while !run.done() {
        let Ok(rows) = run.epoch(rt, network, gate) else {
            return Err(Trouble::NoMemory);
        };
        match trace_writer::write(rows.as_slice(), out) {
            Ok(()) => {}
            Err(_) => return Err(Trouble::OutFailed),
        }
    }
    Ok(())
}

// Runs the sample of a number, each of its nodes on a thread of its own, and writes how often they sent and what they
// heard.
fn write_sample<'n, R: Threads + Wait + Sync, O: Sink, G: Gate + Sync>(
    rt: &R,
    alloc: Global,
    number: u16,
    out: &mut O,
    gate: &G,
) -> Result<(), Trouble<'n>>
    ensures { Written (sample_line number) (stream (O.taken out.old) (O.faults out.old)) (stream (O.taken out.new) (O.faults out.new)) result }
{
    let Ok(network) = sample_maker::make(alloc, number, NODES) else {
        return Err(Trouble::NoMemory);
    };
    let Ok(rows) = run_threads(rt, alloc, &network, gate) else {
        return Err(Trouble::NoMemory);
    };
    write_counts(number, rows.as_slice(), out)
}

/// Does a job: the runs of `run FILE` and `make NUMBER` give each node a thread of its own, and all else is done on
/// this one.
#[tactic(auto, unfolding(crate::specs::Parts::output))]
pub fn do_on_threads<'n, R: Threads + Wait + Sync, O: Sink, G: Gate + Sync>(
    rt: &R,
    alloc: Global,
    job: Job,
    out: &mut O,
    gate: &G,
) -> Result<(), Trouble<'n>>
    requires { IsShort job }
    ensures { Written (output job) (stream (O.taken out.old) (O.faults out.old)) (stream (O.taken out.new) (O.faults out.new)) result }
{
    match job {
        Job::Trace(network) => write_trace(rt, alloc, &network, out, gate),
        Job::Make(number) => write_sample(rt, alloc, number, out, gate),
        job => do_job(alloc, job, out),
    }
}
