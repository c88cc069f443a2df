// From the words to a status, on one thread.
ghost use Rattle.std.specs.Prelude.{map};
ghost use Rattle.command_plans.specs.Ends.{reads, stream};
ghost use Rattle.commands.specs.TopClause.{TopClause};

use crate::job::do_job;
use crate::reading::prepare;
use command_plans::{Status, report};
use sim_io::{Sink, Store};
use std::alloc::Global;

/// The whole program over a store of files and two streams, on one thread: does what the words after the program's name
/// ask for, and answers how it ended. Files are read in the order in which the command needs them, each whole, and
/// `out` is written only when all of them are accepted: a scenario first, then the image of each node in order of
/// number.
///
/// | Words | Written to `out` with `Done` |
/// |---|---|
/// | `node FILE CYCLES` | the trace of one node that runs the image in FILE alone; instructions in the first 20,000 |
/// | `run FILE` | the trace of the network of the scenario in FILE, in the single global order of cycles |
/// | `run --plain FILE` | the trace of that network, which is run on one thread |
/// | `monitor FILE` | on what each node of that network spent each cycle of the window, and its charge |
/// | `monitor FILE FROM TO` | the same of the cycles from FROM on, below TO, in place of the window |
/// | `sniff FILE` | the frames that each node of that network sends |
/// | `check FILE` | how many nodes, links and cycles the network of the scenario in FILE has; it is not run |
/// | `disasm FILE` | the address and the text of each instruction of the image in FILE, a line each |
/// | `asm FILE` | the program of the source in assembly in FILE, as an image in Intel HEX |
/// | `head FILE N` | the trace of the first N epochs of 262,144 cycles, of the network of the scenario in FILE |
/// | `save FILE N` | the state in which it is then |
/// | `look FILE CYCLE` | the state in which it is as cycle CYCLE begins |
/// | `resume FILE STATE` | the trace of that network from the state in STATE on |
/// | `head FILE N STATE` | the trace of N epochs of that network from the state in STATE on |
/// | `save FILE N STATE` | the state in which it is then |
/// | `look FILE CYCLE STATE` | the state in which it is as cycle CYCLE begins |
/// | `sweep FILE STATE MOVES` | for each line of MOVES the trace of that network from the state in STATE on, with its input |
/// | `watch FILE FROM TO PLACES` | what is seen at PLACES in that network in the cycles from FROM on, below TO |
/// | `watch FILE FROM TO PLACES STATE` | the same from the state in STATE on |
/// | `watch FILE FROM TO PLACES STATE MOVES` | the same once for each line of MOVES |
/// | `make NUMBER` | what came out of the sample network of NUMBER: how often its nodes sent, and what they heard |
///
/// `node` has no links and no input, and runs over CYCLES cycles; `monitor` runs up to the window's end,
/// or up to TO.
///
/// FILE, STATE, MOVES and PLACES are words that are not empty and do not begin with `-`; CYCLES is one to eight digits,
/// 1 to 10,000,000; NUMBER is one to five, up to 65,535; N is one to seven, 1 or more; FROM, TO and CYCLE are one to
/// thirteen, up to 2^40, and FROM is not above TO. All other words are `BadWords`. Where the answer is not `Done`, `err`
/// has one line that says why, or the write of that line failed and the answer is `SinkFailed`. A node that stops is no
/// fault.
pub fn avrora_alone<'w, S: Store, O: Sink, E: Sink>(
    alloc: Global,
    words: &'w [&'w str],
    store: &mut S,
    out: &mut O,
    err: &mut E,
) -> Status
    ensures { TopClause (S.held store.old) (S.held store.new) (map (λ w. w.now) words.entry.now)
        (reads (S.faults store.old) (S.failed store.old)) (reads (S.faults store.new) (S.failed store.new))
        (stream (O.taken out.old) (O.faults out.old)) (stream (O.taken out.new) (O.faults out.new))
        (stream (E.taken err.old) (E.faults err.old)) (stream (E.taken err.new) (E.faults err.new)) result }
{
    match prepare(alloc, words, store, err) {
        Ok(job) => {
            let outcome = do_job(alloc, job, out);
            report(err, outcome)
        }
        Err(status) => status,
    }
}
