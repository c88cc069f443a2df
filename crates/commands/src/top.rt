// From the words to a status.
ghost use Rattle.std.specs.Prelude.{map};
ghost use Rattle.command_plans.specs.Ends.{reads, stream};
ghost use Rattle.commands.specs.TopClause.{TopClause};

use crate::reading::prepare;
use crate::threads::do_on_threads;
use command_plans::{Status, report};
use fleet_threads::Gate;
use sim_io::{Sink, Store};
use std::alloc::Global;
use std::sync::Wait;
use std::thread::Threads;

/// The whole program over a store of files and two streams: does what the words after the program's name ask for, and
/// answers how it ended. `run FILE` and `make NUMBER` give each node a thread of its own; what is written does not
/// depend on it, and for the words, the files and the two streams see `avrora_alone`. The gate is told of each turn of
/// a node before it begins. The call comes back only if each node that waits at a sample is served; no such thing is
/// claimed.
pub fn avrora<'w, R: Threads + Wait + Sync, S: Store, O: Sink, E: Sink, G: Gate + Sync>(
    rt: &R,
    alloc: Global,
    words: &'w [&'w str],
    store: &mut S,
    out: &mut O,
    err: &mut E,
    gate: &G,
) -> Status
    ensures { TopClause (S.held store.old) (S.held store.new) (map (λ w. w.now) words.entry.now)
        (reads (S.faults store.old) (S.failed store.old)) (reads (S.faults store.new) (S.failed store.new))
        (stream (O.taken out.old) (O.faults out.old)) (stream (O.taken out.new) (O.faults out.new))
        (stream (E.taken err.old) (E.faults err.old)) (stream (E.taken err.new) (E.faults err.new)) result }
{
    match prepare(alloc, words, store, err) {
        Ok(job) => {
            let outcome = do_on_threads(rt, alloc, job, out, gate);
            report(err, outcome)
        }
        Err(status) => status,
    }
}
