// Samples over a long record: 64 nodes, each of which hears four others, have sent so many bytes each, one in 1,024
// cycles, and each samples in turn, at the newest sends or drawn over the whole record.
ghost use Rattle.std.specs.Prelude.{◌≡◌, ◌≤◌, ◌<◌, ◌+◌, ◌*◌, IfOk};
ghost use Rattle.std.specs.List.{All};
ghost use Rattle.world_core.specs.Topology.{IsInside};

use air_base::Send;
use std::alloc::Global;
use world_core::{Link, NoMemory, SendLog, Topo};

const NODES: u8 = 64;

const LATENCY: u64 = 100;

const BYTE_TIME: u64 = 256;

// Between the sends of one node and those of the next.
const STEP: u64 = 16;

// How many bytes a node sends, how many samples there are, and whether they are drawn over the whole record.
#[derive(Clone, Copy)]
struct Measure {
    sends: u64,
    samples: u64,
    is_drawn: bool,
}

// How many samples heard nothing, one byte, and several.
#[derive(Clone, Copy)]
struct Counts {
    quiet: u64,
    heard: u64,
    clashed: u64,
}

// Each node hears the nodes 1, 7, 13 and 29 places behind it.
fn links(alloc: Global) -> Option<Vec<Link>> {
    let mut links = Vec::new(alloc);
    for to in 0..NODES {
        for back in [1u8, 7, 13, 29] {
            let from = (to + NODES - back) % NODES;
            links.push(Link { from, to }).ok()?;
        }
    }
    Some(links)
}

// The record of so many sends, one in each step, by one node after another.
fn record(alloc: Global, topo: &Topo, sends: u64) -> Result<SendLog, NoMemory>
    requires nodes { topo.now.nodes ≡ 64 }
    requires within { 16 * sends ≤ topo.now.limit }
    ensures { IfOk result (λ l. All (λ x. IsInside topo.now x.node x.cycle) l.sends) }
{
    let mut log = SendLog::new(alloc, sends as usize)?;
    for number in 0..sends {
        let node = (number % 64) as u8;
        let cycle = STEP * number;
        let byte = (number % 251) as u8;
        log.push(Send { node, cycle, byte });
    }
    Ok(log)
}

// What so many samples hear, each of another node: at the newest sends, or drawn over the record.
fn sample(log: &SendLog, topo: &Topo, measure: &Measure) -> Counts
    requires inside { All (λ x. IsInside topo.now x.node x.cycle) log.now.sends }
    requires few { measure.now.sends ≤ 9000 }
{
    let span = (STEP * 64 * measure.sends).max(1);
    let mut counts = Counts {
        quiet: 0,
        heard: 0,
        clashed: 0,
    };
    for number in 0..measure.samples {
        let node = (number % 64) as u8;
        let cycle = if measure.is_drawn {
            number.wrapping_mul(2_654_435_761) % span
        } else {
            span
        };
        match log.heard(topo, node, cycle).status {
            0 => counts.quiet = counts.quiet.wrapping_add(1),
            1 => counts.heard = counts.heard.wrapping_add(1),
            _ => counts.clashed = counts.clashed.wrapping_add(1),
        }
    }
    counts
}

// What comes of it; nothing where the sends pass the cycle limit, or there is no memory.
fn run(alloc: Global, measure: &Measure) -> Option<Counts> {
    if measure.sends > 9_000 {
        return None;
    }
    let topo = Topo::new(NODES, 10_000_000, LATENCY, BYTE_TIME, links(alloc)?).ok()?;
    let Ok(log) = record(alloc, &topo, 64 * measure.sends) else {
        return None;
    };
    Some(sample(&log, &topo, measure))
}

/// How many samples hear nothing, one byte, and several: of `SENDS:SAMPLES`, the sends of a node and the samples.
/// `None` where the sends pass the cycle limit, there was no memory, or the text is another.
pub fn counted(alloc: Global, is_drawn: bool, numbers: &str) -> Option<String> {
    let (sends, samples) = numbers.split_once(':')?;
    let measure = Measure {
        sends: sends.parse().ok()?,
        samples: samples.parse().ok()?,
        is_drawn,
    };
    let Counts {
        quiet,
        heard,
        clashed,
    } = run(alloc, &measure)?;
    format!(in alloc; "quiet {quiet} heard {heard} clashed {clashed}").ok()
}
