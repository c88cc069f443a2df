// A run of one node, which no link reaches.
ghost use Rattle.std.specs.Prelude.{◌≤◌, ◌^◌};
ghost use Rattle.air_base.specs.Bounds.{LAST_CYCLE};

use crate::trials::Trial;
use air_base::Heard;
use avr_program::Program;
use ihex_loader::load;
use node_core::{Node, Row};
use scenario_file::{BYTE_TIME, no_script};
use serial_ports::Script;
use std::alloc::Global;

// More than the sends and samples of any run here.
const TURNS: usize = 16;

const SILENCE: Heard = Heard {
    status: 0,
    byte: 0,
    age: 0,
};

/// What a run came to.
#[derive(Drop)]
pub struct Run {
    pub rows: Vec<Row>,
    pub end: Row,
    pub cycle: u64,
    /// The bytes of the SRAM at 0x0100 and 0x0101, where they are asked for.
    pub sram: Option<(u8, u8)>,
}

// Answers a sample of the air with silence, or goes on until a cycle that sends or samples, or the limit.
fn turn(node: &mut Node, limit: u64)
    requires early { limit ≤ LAST_CYCLE }
{
    if node.asking() {
        node.answer(SILENCE);
    } else if node.cycle() < limit {
        node.run_until(limit);
    }
}

/// The run of an image from reset on, as the trial says; `None` where it may not be, the image is refused, or there is
/// no memory.
pub fn run_trial<'l>(alloc: Global, image: &[u8], trial: Trial<'l>) -> Option<Run> {
    if trial.every == 0 || trial.bytes.len() > 65_536 {
        return None;
    }
    let limit = u64::from(trial.limit);
    let asks = trial.sram;
    let window = (0, u64::from(trial.told));
    let script = Script::new(u64::from(trial.from), u64::from(trial.every), trial.bytes);
    let program = Program::new(alloc, load(alloc, image).ok()?).ok()?;
    let mut node = Node::new(alloc, 0, program, script, window, BYTE_TIME).ok()?;
    for _ in 0..TURNS {
        turn(&mut node, limit);
    }
    Some(Run {
        end: node.end_row(limit),
        cycle: node.cycle(),
        sram: if asks {
            Some((node.sram(0x0100), node.sram(0x0101)))
        } else {
            None
        },
        rows: node.into_rows(),
    })
}

/// The rows of a run of an image below a limit, on a node at which nothing arrives; of its instructions and entries
/// those of a window.
pub fn rows_in(alloc: Global, image: &[u8], limit: u32, from: u32, until: u32) -> Option<Vec<Row>> {
    if from > until {
        return None;
    }
    let limit = u64::from(limit);
    let window = (u64::from(from), u64::from(until));
    let program = Program::new(alloc, load(alloc, image).ok()?).ok()?;
    let mut node = Node::new(alloc, 0, program, no_script(alloc), window, BYTE_TIME).ok()?;
    for _ in 0..TURNS {
        turn(&mut node, limit);
    }
    Some(node.into_rows())
}
