//! `avrora`: the program.
#![tactic(auto)]

use commands::run_program;
use fleet_threads::OpenGate;
use sim_io::{DirStore, StdSink};
use std::io;
use std::process::ExitCode;

fn main(rt: HostRuntime) -> ExitCode {
    ExitCode::from(run_program(
        &rt,
        &rt,
        &mut DirStore::new(&rt),
        &mut StdSink::new(io::writer(&rt)),
        &mut StdSink::new(rt.stderr()),
        &OpenGate,
    ))
}
