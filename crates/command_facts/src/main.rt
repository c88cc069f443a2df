//! The stored runs of all cases, in one program, since what a program stands on is proved once more for each. Each of
//! its words names a kind of cases and a file of them, as `calls=calls.txt` (some kinds have none); what the cases come
//! to is written one after another. Behind the word `refused` it ends as `avrora` itself, which refuses all these words
//! with its exit status.
#![tactic(auto)]

use commands::run_program;
use fleet_threads::OpenGate;
use sim_io::{DirStore, Sink, StdSink, write_all};
use std::env::{self, Env};
use std::fs::Files;
use std::io;
use std::process::ExitCode;
use std::sync::Wait;
use std::thread::Threads;
use std::time::Clock;
use stored_cases::{Failed, write_line};

// A file of cases of a node's parts.
fn do_parts<R: Files + AllocGlobal, O: Sink>(
    rt: &R,
    kind: &str,
    file: &str,
    out: &mut O,
) -> Result<(), Failed> {
    match kind {
        "streams" => stream_facts::do_file(rt, file, out),
        "devices" => device_facts::do_file(rt, file, out),
        "instructions" => instruction_facts::do_file(rt, file, out),
        "sources" => instruction_facts::do_sources(rt, file, out),
        "scenarios" => run_facts::do_scenarios(rt, file, out),
        "nodes" => run_facts::do_nodes(rt, file, out),
        "profiles" => run_facts::do_profiles(rt, file, out),
        "samples" => run_facts::do_samples(rt, file, out),
        "sniffs" => run_facts::do_sniffs(rt, file, out),
        "saved" => state_facts::do_file(rt, file, out),
        _ => Err(Failed),
    }
}

// A file of cases of the air, or one of a node's parts; of `trials`, a trial in the place of a file.
fn do_air<R: Threads + Wait + Files + Clock + AllocGlobal + Sync, O: Sink>(
    rt: &R,
    kind: &str,
    file: &str,
    out: &mut O,
) -> Result<(), Failed> {
    match kind {
        "air" => air_facts::do_file(rt, file, out),
        "record" => record_facts::do_record(rt, file, out),
        "sessions" => record_facts::do_sessions(rt, file, out),
        "trials" => sync_facts::do_trial(rt, file, out),
        _ => do_parts(rt, kind, file, out),
    }
}

// A file of cases of whole calls, or one of what stands below them.
fn do_calls<R: Threads + Wait + Files + Clock + AllocGlobal + Sync, O: Sink>(
    rt: &R,
    kind: &str,
    file: &str,
    out: &mut O,
) -> Result<(), Failed> {
    match kind {
        "traces" => call_facts::do_traces(rt, file, out),
        "calls" => call_facts::do_calls(rt, file, out),
        "faults" => call_facts::do_faults(rt, file, out),
        "networks" => call_facts::do_networks(rt, file, out),
        _ => do_air(rt, kind, file, out),
    }
}

// What one word asks for.
fn do_word<R: Threads + Wait + Files + Clock + AllocGlobal + Sync, O: Sink>(
    rt: &R,
    word: &str,
    out: &mut O,
) -> Result<(), Failed> {
    match word.split_once('=') {
        Some((kind, file)) => do_calls(rt, kind, file, out),
        None if word == "gates" => thread_facts::do_all(rt, out),
        None if word == "all_words" => instruction_facts::do_all_words(rt.alloc(), out),
        None => Err(Failed),
    }
}

// Each word after the program's name, under a line that names it. It answers whether the last one was `refused`.
fn do_words<R: Env + Threads + Wait + Files + Clock + AllocGlobal + Sync, O: Sink>(
    rt: &R,
    out: &mut O,
) -> Result<bool, Failed> {
    let Ok(words) = env::args(rt) else {
        return Err(Failed);
    };
    let mut is_refused = false;
    for word in words.skip(1) {
        write_all(out, b"=== ")?;
        write_line(word.as_str(), out)?;
        is_refused = word.as_str() == "refused";
        if !is_refused {
            do_word(rt, word.as_str(), out)?;
        }
    }
    Ok(is_refused)
}

fn main(rt: HostRuntime) -> ExitCode {
    let mut out = StdSink::new(io::writer(&rt));
    match do_words(&rt, &mut out) {
        Ok(true) => ExitCode::from(run_program(
            &rt,
            &rt,
            &mut DirStore::new(&rt),
            &mut out,
            &mut StdSink::new(rt.stderr()),
            &OpenGate,
        )),
        Ok(false) => ExitCode::SUCCESS,
        Err(Failed) => ExitCode::FAILURE,
    }
}
