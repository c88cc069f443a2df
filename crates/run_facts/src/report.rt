// What was read of a text, line for line.
use air_base::{LAST_CYCLE, LAST_END};
use scenario_file::{ScenarioText, read};
use serial_ports::Script;
use sim_io::{Name, Sink, write_all};
use std::alloc::Global;
use stored_cases::{Failed, write_line};
use world_core::{Link, Topo};

// Where a link is asked whether it is open.
const PROBES: [u64; 16] = [
    0,
    1,
    2,
    9,
    10,
    11,
    19,
    20,
    92,
    93,
    94,
    99,
    100,
    LAST_CYCLE - 2,
    LAST_CYCLE - 1,
    LAST_CYCLE,
];

// The most bytes of a script, and one.
const MOST_ARRIVALS: u32 = 65_537;

// The bytes of a script: how many, and the cycle and value of the first and of the last.
#[derive(Clone, Copy)]
struct Arrivals {
    count: u32,
    first: (u64, u8),
    last: (u64, u8),
}

// The first cycle from this one on in which a byte arrives, and that byte.
fn next_arrival(script: &Script, cycle: u64) -> Option<(u64, u8)> {
    if cycle >= LAST_END {
        return None;
    }
    let quiet = script.quiet(cycle, LAST_END - cycle);
    if quiet >= LAST_END - cycle {
        return None;
    }
    let at = cycle + quiet;
    match script.byte_at(at) {
        Some(byte) => Some((at, byte)),
        None => None,
    }
}

fn arrivals_of(script: &Script) -> Arrivals {
    let mut all = Arrivals {
        count: 0,
        first: (0, 0),
        last: (0, 0),
    };
    let mut cycle = 0u64;
    for number in 0..MOST_ARRIVALS {
        match next_arrival(script, cycle) {
            Some(arrival) => {
                if number == 0 {
                    all.first = arrival;
                }
                all.last = arrival;
                all.count = number + 1;
                cycle = arrival.0.saturating_add(1);
            }
            None => return all,
        }
    }
    all
}

fn write_node<O: Sink>(
    alloc: Global,
    node: usize,
    image: &Name,
    script: &Script,
    out: &mut O,
) -> Result<(), Failed> {
    let image = image.as_str();
    let all = arrivals_of(script);
    let count = all.count;
    let (from, first) = all.first;
    let (to, last) = all.last;
    let line = format!(in alloc;
        "  node {node}: {image}, {count} bytes, {first} at {from} to {last} at {to}"
    )?;
    Ok(write_line(line.as_str(), out)?)
}

fn write_link<O: Sink>(alloc: Global, topo: &Topo, link: &Link, out: &mut O) -> Result<(), Failed> {
    let from = link.from;
    let to = link.to;
    let latency = topo.latency_of(from, to);
    let line = format!(in alloc; "  link {from} to {to}: {latency} cycles, open ")?;
    write_all(out, line.as_str().as_bytes())?;
    for cycle in PROBES.iter() {
        let is_open = topo.is_open(from, to, *cycle);
        write_all(out, if is_open { b"1" } else { b"0" })?;
    }
    Ok(write_all(out, b"\n")?)
}

fn write_topo<O: Sink>(
    alloc: Global,
    topo: &Topo,
    window: (u64, u64),
    out: &mut O,
) -> Result<(), Failed> {
    let nodes = topo.nodes();
    let limit = topo.limit();
    let latency = topo.latency();
    let byte_time = topo.byte_time();
    let (from, until) = window;
    let line = format!(in alloc;
        "  {nodes} nodes, {limit} cycles, latency {latency}, byte time {byte_time}, window {from} to {until}"
    )?;
    Ok(write_line(line.as_str(), out)?)
}

fn write_scenario<O: Sink>(alloc: Global, text: &ScenarioText, out: &mut O) -> Result<(), Failed> {
    write_topo(alloc, &text.topo, text.window, out)?;
    for (node, image) in text.images.iter().enumerate() {
        if let Some(script) = text.scripts.get(node) {
            write_node(alloc, node, image, script, out)?;
        }
    }
    for link in text.topo.links() {
        write_link(alloc, &text.topo, link, out)?;
    }
    Ok(())
}

/// Reads a text and writes what was read of it under the case's name.
pub fn report<O: Sink>(alloc: Global, name: &[u8], text: &[u8], out: &mut O) -> Result<(), Failed> {
    write_all(out, name)?;
    write_all(out, b": ")?;
    match read(alloc, text) {
        Ok(scenario) => {
            write_line("ok", out)?;
            write_scenario(alloc, &scenario, out)
        }
        Err(fault) => Ok(write_line(fault.name(), out)?),
    }
}
