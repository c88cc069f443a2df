//! Networks with each node on a thread of its own, beside gates that hold a node until another one has come far enough:
//! so the stored run shows that all nodes are under way at once, that a node waits at a sample, and that one which
//! waits for nobody goes ahead; or that refuse threads, so that it shows that nodes without one take turns; or that are
//! never to be told a turn, as by all words but those of `run FILE` and `make NUMBER`. A body on one thread, one that
//! does not wait, one in lockstep and one that leaves a refused node, or all others, behind each fail one of them, and
//! the first that fails is the last. The whole program is run, but for `main`. `command_facts` runs it.
#![tactic(auto)]

mod gates;
mod runs;

use gates::{AllBegin, Counted, FirstIsLate, LastTurn, NoThread, SecondIsLate, Told};
use runs::{write_call, write_end, write_rows};
use sim_io::{Sink, write_all};
use std::fs::Files;
use std::sync::Wait;
use std::sync::atomic::{AtomicBool, AtomicU64, Ordering};
use std::thread::Threads;
use stored_cases::{Failed, write_line, write_number};

static RUN: [&str; 3] = ["avrora", "run", "gates.toml"];

static APART: [&str; 3] = ["avrora", "run", "gates_apart.toml"];

static MAKE: [&str; 3] = ["avrora", "make", "0"];

// Each form of a call but `run FILE` and `make NUMBER`: it is done on one thread. One space stands between words, of
// which there are eight at most, with the program's name.
static ON_ONE: [&str; 19] = [
    "avrora run --plain gates.toml",
    "avrora node gates_loop.hex 3000",
    "avrora monitor gates.toml",
    "avrora monitor gates.toml 0 500",
    "avrora sniff gates.toml",
    "avrora check gates.toml",
    "avrora disasm gates_loop.hex",
    "avrora asm a.s",
    "avrora head sweep.toml 1",
    "avrora save sweep.toml 1",
    "avrora look sweep.toml 262144",
    "avrora look sweep.toml 262144 sweep.state",
    "avrora resume sweep.toml sweep.state",
    "avrora head chain.toml 1 chain_1.state",
    "avrora save chain.toml 1 chain_1.state",
    "avrora sweep sweep.toml sweep.state three.moves",
    "avrora watch sweep.toml 263144 265144 sweep.places",
    "avrora watch sweep.toml 263144 265144 sweep.places sweep.state",
    "avrora watch sweep.toml 263144 265144 sweep.places sweep.state three.moves",
];

// How many nodes `make 0` has.
const MADE: u64 = 8;

static LONG: [&str; 3] = ["avrora", "run", "gates_long.toml"];

// The number of no node.
const NOBODY: u8 = u8::MAX;

// Whether what is to be so was seen to be so. Where it was not, no other run is begun, which might not end.
fn write_seen<O: Sink>(what: &str, seen: bool, out: &mut O) -> Result<(), Failed> {
    write_all(out, what.as_bytes())?;
    write_line(if seen { ": yes" } else { ": no" }, out)?;
    if seen { Ok(()) } else { Err(Failed) }
}

// Whether each node began while all others were held.
fn write_all_began<O: Sink>(told: &Told, out: &mut O) -> Result<(), Failed> {
    let seen = !told.gave_up() && told.has(0, 0) && told.has(1, 0);
    write_seen("all began", seen, out)
}

// The whole program, called by these words for so many nodes: each begins while no other has ended, though the one of
// this number is refused its thread.
fn call_at_once<R: Threads + Wait + Files + AllocGlobal + Sync, O: Sink>(
    rt: &R,
    words: &[&str],
    nodes: u64,
    refused: u8,
    out: &mut O,
) -> Result<(), Failed> {
    let told = Told::none();
    let gate = AllBegin {
        told: &told,
        nodes,
        refused,
    };
    write_call(rt, words, None, &gate, out)?;
    write_all_began(&told, out)
}

// Each node begins while no other has ended.
fn all_begin<R: Threads + Wait + Files + AllocGlobal + Sync, O: Sink>(
    rt: &R,
    out: &mut O,
) -> Result<(), Failed> {
    write_line(
        "# all nodes are under way at once: by run_threads, by run, by make",
        out,
    )?;
    let told = Told::none();
    let gate = AllBegin {
        told: &told,
        nodes: 2,
        refused: NOBODY,
    };
    write_rows(rt, &gate, out)?;
    write_all_began(&told, out)?;
    call_at_once(rt, &RUN, 2, NOBODY, out)?;
    call_at_once(rt, &MAKE, MADE, NOBODY, out)
}

// One node has no thread of its own, and is under way with the others.
fn one_refused<R: Threads + Wait + Files + AllocGlobal + Sync, O: Sink>(
    rt: &R,
    out: &mut O,
) -> Result<(), Failed> {
    write_line(
        "# all are under way at once where node 1 is refused its thread: by run, by make",
        out,
    )?;
    call_at_once(rt, &RUN, 2, 1, out)?;
    call_at_once(rt, &MAKE, MADE, 1, out)
}

// The whole program, called by these words: no node has a thread of its own, and none goes ahead of the others.
fn call_in_turns<R: Threads + Wait + Files + AllocGlobal + Sync, O: Sink>(
    rt: &R,
    words: &[&str],
    out: &mut O,
) -> Result<(), Failed> {
    let (told, went_ahead) = (Told::none(), AtomicBool::new(false));
    let gate = NoThread {
        told: &told,
        went_ahead: &went_ahead,
    };
    write_call(rt, words, None, &gate, out)?;
    let seen = !went_ahead.load(Ordering::SeqCst) && told.has(0, 1) && told.has(1, 1);
    write_seen("they took turns", seen, out)
}

// All nodes are refused their threads. Those that hear nobody come first: a node that waits for another one on the same
// thread would not end.
fn all_refused<R: Threads + Wait + Files + AllocGlobal + Sync, O: Sink>(
    rt: &R,
    out: &mut O,
) -> Result<(), Failed> {
    write_line(
        "# all nodes are refused their threads: by run where none hears another, by run, by make",
        out,
    )?;
    call_in_turns(rt, &APART, out)?;
    call_in_turns(rt, &RUN, out)?;
    call_in_turns(rt, &MAKE, out)
}

// Whether node 1 waited at its sample while node 0 was held.
fn write_waited<O: Sink>(gate: &FirstIsLate<'_>, out: &mut O) -> Result<(), Failed> {
    let waited = !gate.went_on.load(Ordering::SeqCst) && gate.told.has(1, 2);
    write_seen("it waited", waited && !gate.told.gave_up(), out)
}

// Node 1 does not pass its sample while node 0 is held.
fn first_is_late<R: Threads + Wait + Files + AllocGlobal + Sync, O: Sink>(
    rt: &R,
    out: &mut O,
) -> Result<(), Failed> {
    write_line("# node 1 waits for node 0: by run_threads, by run", out)?;
    let (told, went_on) = (Told::none(), AtomicBool::new(false));
    let gate = FirstIsLate {
        told: &told,
        went_on: &went_on,
    };
    write_rows(rt, &gate, out)?;
    write_waited(&gate, out)?;
    let (told, went_on) = (Told::none(), AtomicBool::new(false));
    let gate = FirstIsLate {
        told: &told,
        went_on: &went_on,
    };
    write_call(rt, &RUN, None, &gate, out)?;
    write_waited(&gate, out)
}

// Node 0 comes to its turn 3 while node 1 is held.
fn second_is_late<R: Threads + Wait + Files + AllocGlobal + Sync, O: Sink>(
    rt: &R,
    out: &mut O,
) -> Result<(), Failed> {
    write_line("# node 0 goes ahead of node 1: by run_threads, by run", out)?;
    let told = Told::none();
    write_rows(rt, &SecondIsLate(&told), out)?;
    write_seen("it went ahead", !told.gave_up() && told.has(1, 0), out)?;
    let told = Told::none();
    write_call(rt, &RUN, None, &SecondIsLate(&told), out)?;
    write_seen("it went ahead", !told.gave_up() && told.has(1, 0), out)
}

// The rows of the first epoch, of 256 turns, are written before the second is run.
fn epochs<R: Threads + Wait + Files + AllocGlobal + Sync, O: Sink>(
    rt: &R,
    out: &mut O,
) -> Result<(), Failed> {
    write_line("# an epoch is written before the next one is run", out)?;
    let last = AtomicU64::new(0);
    write_call(rt, &LONG, Some(0), &LastTurn(&last), out)?;
    write_seen(
        "no turn above 255 was told",
        last.load(Ordering::SeqCst) <= 255,
        out,
    )?;
    write_call(rt, &LONG, None, &LastTurn(&last), out)?;
    write_seen("turn 256 was told", last.load(Ordering::SeqCst) >= 256, out)
}

// The whole program, called by these words: it tells of no turn, and begins no thread.
fn call_on_one<R: Threads + Wait + Files + AllocGlobal + Sync, O: Sink>(
    rt: &R,
    call: &str,
    out: &mut O,
) -> Result<(), Failed> {
    write_line(call, out)?;
    let words: Vec<&str> = call.split(' ').collect(rt.alloc())?;
    let (turns, threads) = (AtomicU64::new(0), AtomicU64::new(0));
    let gate = Counted {
        turns: &turns,
        threads: &threads,
    };
    write_end(rt, words.as_slice(), &gate, out)?;
    let seen = turns.load(Ordering::SeqCst) == 0 && threads.load(Ordering::SeqCst) == 0;
    write_seen("no node was on a thread of its own", seen, out)
}

// Each call that is done on one thread.
fn on_one<R: Threads + Wait + Files + AllocGlobal + Sync, O: Sink>(
    rt: &R,
    out: &mut O,
) -> Result<(), Failed> {
    write_line("# all but run and make is done on one thread", out)?;
    let calls = ON_ONE;
    for call in calls {
        call_on_one(rt, call, out)?;
    }
    Ok(())
}

// The thread of the call is the last node's: of two nodes one has a thread begun for it, and a lone one has none.
fn own_thread<R: Threads + Wait + Files + AllocGlobal + Sync, O: Sink>(
    rt: &R,
    out: &mut O,
) -> Result<(), Failed> {
    write_line("# threads begun for two nodes, for eight and for one", out)?;
    for words in [&RUN, &MAKE, &LONG] {
        let (turns, threads) = (AtomicU64::new(0), AtomicU64::new(0));
        let gate = Counted {
            turns: &turns,
            threads: &threads,
        };
        write_end(rt, words, &gate, out)?;
        write_number("threads", threads.load(Ordering::SeqCst), out)?;
    }
    Ok(())
}

/// Does the runs beside all gates, one after another, and writes what was seen.
pub fn do_all<R: Threads + Wait + Files + AllocGlobal + Sync, O: Sink>(
    rt: &R,
    out: &mut O,
) -> Result<(), Failed> {
    all_begin(rt, out)?;
    all_refused(rt, out)?;
    one_refused(rt, out)?;
    first_is_late(rt, out)?;
    second_is_late(rt, out)?;
    epochs(rt, out)?;
    on_one(rt, out)?;
    own_thread(rt, out)
}
