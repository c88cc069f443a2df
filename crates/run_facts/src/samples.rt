// Samples run to their end on one thread, each a line of a text file: for each how often its nodes sent and what they
// heard, how long its trace is with a hash of it, and the first byte of each node. And the words of a node's program.
ghost use Rattle.std.specs.Prelude.{◌≤◌, IfSome};

use fleet_plain::run_plain;
use node_core::{Kind, Row};
use sample_maker::{count, make};
use sim_io::Sink;
use std::alloc::Global;
use std::fs::Files;
use stored_cases::{Digest, Failed, LineCases, do_lines, write_line};

// A number, and how many nodes its sample has.
#[derive(Clone, Copy)]
struct Case {
    number: u16,
    nodes: u8,
}

// `NUMBER NODES`.
fn read_case(line: &str) -> Option<Case>
    ensures { IfSome result (λ case. (1 ≤ case.nodes) × (case.nodes ≤ 64)) }
{
    let (number, nodes) = line.split_once(' ')?;
    let number = number.parse::<u16>().ok()?;
    let nodes = nodes.parse::<u8>().ok()?;
    if nodes < 1 || nodes > 64 {
        return None;
    }
    Some(Case { number, nodes })
}

// The rows of the whole sample.
fn rows_of(alloc: Global, case: Case) -> Option<Vec<Row>>
    requires some { 1 ≤ case.nodes }
    requires few { case.nodes ≤ 64 }
{
    let network = make(alloc, case.number, case.nodes).ok()?;
    run_plain(alloc, &network).ok()
}

fn is_sent_by(node: u8, row: &Row) -> bool {
    match row.kind {
        Kind::Sent { .. } => row.node == node,
        _ => false,
    }
}

// The first row of each node that sends.
fn write_first_sends<O: Sink>(nodes: u8, rows: &[Row], out: &mut O) -> Result<(), Failed> {
    for node in 0..nodes {
        if let Some(row) = rows.iter().find(|row| is_sent_by(node, row)) {
            trace_writer::write(&[*row], out)?;
        }
    }
    Ok(())
}

fn write_rows<O: Sink>(alloc: Global, nodes: u8, rows: &[Row], out: &mut O) -> Result<(), Failed> {
    let counts = count(rows);
    let line = format!(in alloc;
        "{} sent, {} quiet, {} heard, {} clashes",
        counts.sent, counts.quiet, counts.heard, counts.clashes
    )?;
    write_line(line.as_str(), out)?;
    let mut trace = Digest::new();
    trace_writer::write(rows, &mut trace)?;
    write_line(trace.text().as_str(), out)?;
    write_first_sends(nodes, rows, out)
}

// The words of the program of node 0 of a sample, and the two behind them.
fn write_words<O: Sink>(alloc: Global, number: u16, out: &mut O) -> Result<(), Failed> {
    let network = make(alloc, number, 1)?;
    let program = network.program(0);
    let mut text = String::new(alloc);
    for pc in 0..32 {
        let word = format!(in alloc;
            "{}{:04X}",
            if pc == 0 { "" } else { " " },
            program.word(pc)
        )?;
        text.push_str(word.as_str())?;
    }
    Ok(write_line(text.as_str(), out)?)
}

// Samples, and words of their programs.
#[derive(Drop)]
struct Samples;

impl LineCases for Samples {
    fn do_case<R: Files + AllocGlobal, O: Sink>(
        &mut self,
        rt: &R,
        line: &str,
        out: &mut O,
    ) -> Result<(), Failed> {
        let alloc = rt.alloc();
        if let Some(number) = line.strip_prefix("words ") {
            return match number.parse::<u16>() {
                Ok(number) => write_words(alloc, number, out),
                Err(_) => Err(Failed),
            };
        }
        let Some(case) = read_case(line) else {
            return Err(Failed);
        };
        let Some(rows) = rows_of(alloc, case) else {
            return Err(Failed);
        };
        write_rows(alloc, case.nodes, rows.as_slice(), out)
    }
}

/// Runs the samples of a file, line after line; the lines are written too.
pub fn do_samples<R: Files + AllocGlobal, O: Sink>(
    rt: &R,
    file: &str,
    out: &mut O,
) -> Result<(), Failed> {
    do_lines(rt, file, &mut Samples, out)
}
