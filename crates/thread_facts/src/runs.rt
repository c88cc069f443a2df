// The runs that gates look at: one network through `run_threads`, and the same by the program and its words.
use avr_program::Program;
use commands::run_program;
use fleet_threads::{Gate, run_threads};
use ihex_loader::{Flash, load};
use memory_io::MemSink;
use node_runner::Scenario;
use scenario_file::{ScenarioText, no_script};
use sim_io::{DirStore, Sink, write_all};
use std::env::{Env, FillError};
use std::fs::Files;
use std::sync::Wait;
use std::thread::Threads;
use stored_cases::{Failed, bytes_of, write_number};
use world_core::{Link, Topo};

// More than any stream of a run takes.
const AMPLE: usize = 1_000_000;

// The flash of an image.
fn flash_in<R: Files + AllocGlobal>(rt: &R, name: &str) -> Result<Flash, Failed> {
    let text = bytes_of(rt, name)?;
    match load(rt.alloc(), text.as_slice()) {
        Ok(flash) => Ok(flash),
        Err(_) => Err(Failed),
    }
}

// The network of gates.toml: node 1 hears node 0, both send and sample.
fn two_rings<R: Files + AllocGlobal>(rt: &R) -> Result<Scenario, Failed> {
    let alloc = rt.alloc();
    let links = vec![in alloc; Link { from: 0, to: 1 }]?;
    let Ok(topo) = Topo::new(2, 500, 100, 512, links) else {
        return Err(Failed);
    };
    let first = Program::new(alloc, flash_in(rt, "gates_a.hex")?)?;
    let second = Program::new(alloc, flash_in(rt, "gates_b.hex")?)?;
    let text = ScenarioText {
        topo,
        images: Vec::new(alloc),
        scripts: vec![in alloc; no_script(alloc), no_script(alloc)]?,
        window: (0, 0),
    };
    Ok(Scenario::new(text, vec![in alloc; first, second]?))
}

/// Writes the trace of the network of gates.toml, whose rows `run_threads` gives.
pub fn write_rows<R: Threads + Wait + Files + AllocGlobal + Sync, G: Gate + Sync, O: Sink>(
    rt: &R,
    gate: &G,
    out: &mut O,
) -> Result<(), Failed> {
    let scenario = two_rings(rt)?;
    let rows = run_threads(rt, rt.alloc(), &scenario, gate)?;
    Ok(trace_writer::write(rows.as_slice(), out)?)
}

// An environment with these words, the program's name among them, and no variable.
#[derive(Drop)]
struct Given<'w> {
    words: &'w [&'w str],
}

impl<'w> Env for Given<'w> {
    fn arg(&self, i: usize, buf: &mut [u8]) -> Result<usize, FillError> {
        let Some(word) = self.words.get(i) else {
            return Err(FillError::NotPresent);
        };
        let bytes = word.as_bytes();
        if bytes.len() > buf.len() {
            return Err(FillError::TooLong);
        }
        buf[..bytes.len()].copy_from_slice(bytes);
        Ok(bytes.len())
    }

    fn var(&self, name: &str, buf: &mut [u8]) -> Result<usize, FillError> {
        let _ = name;
        let _ = buf;
        Err(FillError::NotPresent)
    }

    fn var_at(&self, i: usize, buf: &mut [u8]) -> Result<usize, FillError> {
        let _ = i;
        let _ = buf;
        Err(FillError::NotPresent)
    }
}

// What a call came to: its status, and what stands on both streams.
#[derive(Drop)]
struct Ended {
    status: u8,
    out: MemSink,
    err: MemSink,
}

// The program, called by these words, its name first, over the files beside it. The write to the output with the number
// `fails`, from 0, fails, if there is one.
fn call<R: Threads + Wait + Files + AllocGlobal + Sync, G: Gate + Sync>(
    rt: &R,
    words: &[&str],
    fails: Option<u64>,
    gate: &G,
) -> Result<Ended, Failed> {
    let alloc = rt.alloc();
    let mut fail = Vec::new(alloc);
    if let Some(number) = fails {
        fail.push(number)?;
    }
    let mut out = MemSink::new(alloc, AMPLE, AMPLE, fail)?;
    let mut err = MemSink::new(alloc, AMPLE, AMPLE, Vec::new(alloc))?;
    let mut store = DirStore::new(rt);
    let given = Given { words };
    let status = run_program(rt, &given, &mut store, &mut out, &mut err, gate);
    Ok(Ended { status, out, err })
}

/// Writes the status with which the program ends that is called by these words, its name first, over the files beside
/// it, and what stands on both streams. The write to the output with the number `fails`, from 0, fails, if there is one.
pub fn write_call<R: Threads + Wait + Files + AllocGlobal + Sync, G: Gate + Sync, O: Sink>(
    rt: &R,
    words: &[&str],
    fails: Option<u64>,
    gate: &G,
    out: &mut O,
) -> Result<(), Failed> {
    let ended = call(rt, words, fails, gate)?;
    write_number("status", u64::from(ended.status), out)?;
    write_all(out, ended.out.taken())?;
    Ok(write_all(out, ended.err.taken())?)
}

/// The same, but of the output only how many bytes it has.
pub fn write_end<R: Threads + Wait + Files + AllocGlobal + Sync, G: Gate + Sync, O: Sink>(
    rt: &R,
    words: &[&str],
    gate: &G,
    out: &mut O,
) -> Result<(), Failed> {
    let ended = call(rt, words, None, gate)?;
    write_number("status", u64::from(ended.status), out)?;
    write_number("bytes", ended.out.taken().len() as u64, out)?;
    Ok(write_all(out, ended.err.taken())?)
}
