// From the words of the command line to the exit status.
ghost use Rattle.command_plans.specs.Ends.{reads, stream};
ghost use Rattle.commands.specs.Program.{ProgramClause};

use crate::top::avrora;
use command_words::words_given;
use fleet_threads::Gate;
use sim_io::{Sink, Store};
use std::env::Env;
use std::sync::Wait;
use std::thread::Threads;

// The exit status where the words of the command line cannot be had: for want of memory, or where one is no UTF-8.
const NO_WORDS: u8 = 9;

/// The whole program, for a runtime that starts threads and waits, and for an environment that has the words: does what
/// the words after the program's name ask for, over the files of `store`, the standard output `out` and the standard
/// error `err`; and answers the exit status, which is the number of the top call's, or 9 where the words cannot be had.
/// The gate is told of each turn of a node. `main` hands in what is real, and a gate that holds no node.
pub fn run_program<
    R: AllocGlobal + Threads + Wait + Sync,
    V: Env,
    S: Store,
    O: Sink,
    E: Sink,
    G: Gate + Sync,
>(rt: &R, env: &V, store: &mut S, out: &mut O, err: &mut E, gate: &G) -> u8
    ensures { ProgramClause (S.held store.old) (S.held store.new)
        (reads (S.faults store.old) (S.failed store.old)) (reads (S.faults store.new) (S.failed store.new))
        (stream (O.taken out.old) (O.faults out.old)) (stream (O.taken out.new) (O.faults out.new))
        (stream (E.taken err.old) (E.faults err.old)) (stream (E.taken err.new) (E.faults err.new)) result }
{
    match words_given(env, rt.alloc()) {
        Some(words) => avrora(rt, rt.alloc(), words, store, out, err, gate).number(),
        None => NO_WORDS,
    }
}
