// What the lines of a case file have set: a topology and a world, steps, and a state.
use crate::logs::push;
use air_base::{Ask, Heard, Send};
use air_cases::{Fault, Section, byte_of, copy_of, samples_of, send_of, sends_of};
use std::alloc::Global;
use sync_core::Step;
use world_core::SendLog;

/// What is set, for the questions to come.
#[derive(Drop)]
pub struct Setting {
    /// A topology and a world.
    pub world: air_cases::Setting,
    /// A list of steps.
    pub steps: Vec<Step>,
    /// Of a state, each node's clock, in cycles.
    pub clocks: Vec<u64>,
    /// Of a state, how many sends of each node are posted.
    pub sent: Vec<u64>,
    /// Of a state, the cycle up to which it is cut.
    pub floor: u64,
    /// Of a state or a record, the sends.
    pub record: Vec<Send>,
    /// Of a state, the samples with what they heard.
    pub samples: Vec<(Ask, Heard)>,
    /// A record of sends.
    pub log: SendLog,
}

// The most sends that a record of a case file has room for.
const MOST_ROOM: u64 = 10_000;

fn step_of(section: &Section<'_>) -> Result<Option<Step>, Fault> {
    match (section.word, section.numbers.as_slice()) {
        ("r", [node, clock]) => Ok(Some(Step::Raise {
            node: byte_of(*node)?,
            clock: *clock,
        })),
        ("p", [node]) => Ok(Some(Step::Post {
            node: byte_of(*node)?,
        })),
        ("s", [node, cycle]) => Ok(Some(Step::Sample {
            node: byte_of(*node)?,
            cycle: *cycle,
        })),
        _ => Ok(None),
    }
}

fn new_log(alloc: Global, room: u64) -> Result<SendLog, Fault> {
    SendLog::new(alloc, room.min(MOST_ROOM) as usize).map_err(|_| Fault::NoMemory)
}

impl Setting {
    /// Nothing is set: no nodes, and empty lists.
    pub fn new(alloc: Global) -> Result<Setting, Fault> {
        let log = new_log(alloc, 0)?;
        Ok(Setting {
            world: air_cases::Setting::new(alloc),
            steps: Vec::new(alloc),
            clocks: Vec::new(alloc),
            sent: Vec::new(alloc),
            floor: 0,
            record: Vec::new(alloc),
            samples: Vec::new(alloc),
            log,
        })
    }

    // Sets a part of a state, or begins a list of steps; it answers false where the section is neither.
    fn set_state(&mut self, alloc: Global, section: &Section<'_>) -> Result<bool, Fault> {
        match (section.word, section.numbers.as_slice()) {
            ("clocks", numbers) => self.clocks = copy_of(alloc, numbers)?,
            ("sent", numbers) => self.sent = copy_of(alloc, numbers)?,
            ("record", numbers) => self.record = sends_of(alloc, numbers)?,
            ("samples", numbers) => self.samples = samples_of(alloc, numbers)?,
            ("floor", [floor]) => self.floor = *floor,
            ("steps", []) => self.steps = Vec::new(alloc),
            _ => return Ok(false),
        }
        Ok(true)
    }

    // Begins, lengthens or cuts the record of sends, or answers false where the section says nothing of it.
    fn set_log(&mut self, alloc: Global, section: &Section<'_>) -> Result<bool, Fault> {
        match (section.word, section.numbers.as_slice()) {
            ("log", [room]) => self.log = new_log(alloc, *room)?,
            ("push", numbers) => {
                for numbers in numbers.chunks(3) {
                    push(alloc, &mut self.log, send_of(numbers)?)?;
                }
            }
            ("cut", [floor]) => {
                let topo = self.world.lawful_topo()?;
                self.log.cut(&topo, *floor);
            }
            _ => return Ok(false),
        }
        Ok(true)
    }

    /// Sets what the section says, or answers false where it is a question or an answer.
    pub fn set(&mut self, alloc: Global, section: &Section<'_>) -> Result<bool, Fault> {
        if let Some(step) = step_of(section)? {
            self.steps.push(step)?;
            return Ok(true);
        }
        if self.world.set(alloc, section)? {
            return Ok(true);
        }
        if self.set_state(alloc, section)? {
            return Ok(true);
        }
        self.set_log(alloc, section)
    }
}
