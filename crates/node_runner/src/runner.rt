// One node of a scenario, stepped by itself.
ghost use Rattle.std.specs.Prelude.{◌≡◌, ◌<◌, ◌≤◌, ◌+◌, true, false, IfOk};
ghost use Rattle.world_core.specs.Settled.{truth};
ghost use Rattle.world_core.specs.Order.{facts_of};
ghost use Rattle.node_core.specs.Cycle.{end_row};
ghost use Rattle.node_runner.specs.Scenario.{fleet_of};
ghost use Rattle.node_runner.specs.Place.{HasEnded, is_live, rows_of, noted_of, state_at};
ghost use Rattle.node_runner.specs.Event.{IsEvent};

use crate::Scenario;
use air_base::{Heard, Send};
use avr_base::NoMemory;
use node_core::{Node, Reached, Row};
use std::alloc::Global;
use std::marker::Model;
use std::snapshot::Snapshot;

/// What a node did.
#[derive(Drop, Clone, Copy)]
pub enum Event {
    /// It samples the air in the cycle that it has come to, and waits for [`Runner::answer`].
    Ask,
    /// It sent a byte, and waits for [`Runner::note_posted`].
    Sent { send: Send },
    /// All cycles of the call passed, and none sent or sampled; the limit is not reached.
    Turn { cycle: u64 },
    /// No cycle of the call sent or sampled, and the node is stopped or has reached the limit.
    Ended,
    /// There was no memory for the rows of the next cycle. The node stands between two cycles, some of the call's
    /// perhaps passed, and the call may be made again.
    NoMemory,
}

/// A node of a scenario, from reset to the cycle limit. A contract sees its place in the single global order of cycles:
/// its rows and its number of noted sends follow from it.
pub struct Runner {
    scenario: Snapshot<Scenario>,
    number: u8,
    limit: u64,
    since: u64,
    count: u64,
    unnoted: bool,
    node: Node,
}

// By hand, so that an exit that lets go of a runner, here and in the crates above, has one call to prove.
impl Drop for Runner {
    fn drop(self) {
        let Runner {
            scenario: _,
            number: _,
            limit: _,
            since: _,
            count: _,
            unnoted: _,
            node: _,
        } = self;
    }
}

impl Model for Runner {
    ghost use Rattle.node_runner.specs.Place.{Place, IsRunner};

    ghost Value = { Place };

    ghost view = { λ r. record { scenario = r.scenario.value; number = r.number; since = r.since; cycle = r.node.cycle; asking = r.node.asking; unnoted = r.unnoted } };

    ghost invariant = { λ r. IsRunner record { scenario = r.scenario.value; number = r.number; since = r.since; cycle = r.node.cycle; asking = r.node.asking; unnoted = r.unnoted } r.node r.count r.limit };
}

impl Runner {
    /// Node `node` of the scenario at reset.
    pub fn new(alloc: Global, scenario: &Scenario, node: u8) -> Result<Runner, NoMemory>
        requires { node < scenario.now.topo.nodes }
        ensures { IfOk result (λ r. r ≡ record { scenario = scenario.now; number = node; since = 0; cycle = 0; asking = false; unnoted = false }) }
    {
        let begun = scenario.reset(alloc, node)?;
        Ok(Runner {
            scenario: Snapshot::of(scenario),
            number: node,
            limit: scenario.lawful_topo().limit(),
            since: 0,
            count: 0,
            unnoted: false,
            node: begun,
        })
    }

    /// Runs at most `quantum` cycles, 1 to 65,536, up to the first one that sends or samples, or in which the node is
    /// stopped. No sample is to be unanswered, and no send unnoted.
    pub fn event(&mut self, quantum: u64) -> Event
        requires quantum { (1 ≤ quantum) × (quantum ≤ 65536) }
        requires calm { self.old.asking ≡ false }
        requires noted { self.old.unnoted ≡ false }
        ensures event { IsEvent self.old quantum result self.new }
        ensures count { noted_of self.new ≡ noted_of self.old }
    {
        let to = (self.node.cycle() + quantum).min(self.limit);
        match self.node.run_until(to) {
            Reached::Cycle => {
                if to < self.limit {
                    Event::Turn { cycle: to }
                } else {
                    Event::Ended
                }
            }
            Reached::Sent { cycle, byte } => {
                self.unnoted = true;
                let node = self.number;
                Event::Sent {
                    send: Send { node, cycle, byte },
                }
            }
            Reached::Ask { .. } => Event::Ask,
            Reached::Stopped => Event::Ended,
            Reached::NoMemory => Event::NoMemory,
        }
    }

    /// Finishes the cycle that samples with what was heard, which is to be what the whole order gives.
    pub fn answer(&mut self, heard: Heard)
        requires asking { self.old.asking ≡ true }
        requires right { heard ≡ truth (facts_of (fleet_of self.old.scenario)) self.old.number self.old.cycle }
        ensures place { self.new ≡ record self.old { cycle = self.old.cycle + 1; asking = false } }
        ensures count { noted_of self.new ≡ noted_of self.old }
    {
        self.node.answer(heard);
    }

    /// Takes note that the send of the last event was posted.
    pub fn note_posted(&mut self)
        requires { self.old.unnoted ≡ true }
        ensures place { self.new ≡ record self.old { unnoted = false } }
        ensures count { noted_of self.new ≡ noted_of self.old + 1 }
    {
        self.count += 1;
        self.unnoted = false;
    }

    /// The cycle that it has reached, 0 to the limit; in the middle of a cycle that samples, that cycle.
    pub fn cycle(&self) -> u64
        ensures value { result ≡ self.now.cycle }
        ensures within { self.now.cycle ≤ self.now.scenario.topo.limit }
    {
        self.node.cycle()
    }

    /// The number of its node.
    pub fn number(&self) -> u8
        ensures { result ≡ self.now.number }
    {
        self.number
    }

    /// The node itself: no sample unanswered, its state is that of the global order at the beginning of its cycle.
    pub fn node(&self) -> &Node
        ensures cycle { result.now.cycle ≡ self.now.cycle }
        ensures asking { result.now.asking ≡ self.now.asking }
        ensures state { self.now.asking ≡ false → result.now.state ≡ state_at self.now }
    {
        &self.node
    }

    /// Whether it waits for an answer.
    pub fn asking(&self) -> bool
        ensures { result ≡ self.now.asking }
    {
        self.node.asking()
    }

    /// Whether it can go on before the cycle `end`, or waits for an answer.
    pub fn is_live(&self, end: u64) -> bool
        ensures { result ≡ is_live end self.now }
    {
        self.node.asking() || (self.node.stopped().is_none() && self.node.cycle() < end)
    }

    /// How many of its sends are noted.
    pub fn count(&self) -> u64
        ensures { result ≡ noted_of self.now }
    {
        self.count
    }

    /// Its rows since they were last taken. No sample is to be unanswered.
    pub fn take_rows(&mut self) -> Vec<Row>
        requires { self.old.asking ≡ false }
        ensures rows { result.items ≡ rows_of self.old }
        ensures left { self.new ≡ record self.old { since = self.old.cycle } }
    {
        let rows = self.node.take_rows();
        self.since = self.node.cycle();
        rows
    }

    /// Its last row. It is to have ended.
    pub fn end_row(&self) -> Row
        requires { HasEnded self.now }
        ensures { result ≡ end_row self.now.scenario.topo.limit (state_at self.now) }
    {
        self.node.end_row(self.limit)
    }
}
