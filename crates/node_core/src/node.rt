// A node.
ghost use Rattle.std.specs.Prelude.{◌≡◌, ◌<◌, ◌≤◌, ◌+◌, ◌-◌, [], true, false, None, IfOk, slice_index};
ghost use Rattle.air_base.specs.Bounds.{LAST_CYCLE};
ghost use Rattle.air_base.specs.declared.bounds.TheConstants.{LONGEST_BYTE, SHORTEST_BYTE};
ghost use Rattle.data_space.specs.declared.regions.TheConstants.{SRAM_LAST, SRAM_START};
ghost use Rattle.air_base.specs.NodeRun.{Rests, answered};
ghost use Rattle.node_core.specs.State.{reset};
ghost use Rattle.node_core.specs.Cycle.{begun_at, node_kind, end_row};
ghost use Rattle.node_core.specs.Pace.Midway.{OnlyRests};
ghost use Rattle.node_core.specs.Reached.{IsReached};

use crate::machine::{Machine, ROWS_OF_A_CYCLE};
use crate::{Kind, NodeBus, NodeEnd, Row};
use air_base::Heard;
use avr_base::{NoMemory, StopCause};
use avr_program::Program;
use board_io::OnAir;
use data_space::Cpu;
use serial_ports::Script;
use std::alloc::Global;
use std::marker::Model;
use std::mem;

/// Where a run of a node ended.
#[derive(Clone, Copy)]
pub enum Reached {
    /// The cycle that was asked for: all cycles below it are finished, and none of this call sent or sampled.
    Cycle,
    /// The first cycle that sent a byte. It is finished.
    Sent { cycle: u64, byte: u8 },
    /// The first cycle that samples the air. It waits for [`Node::answer`].
    Ask { cycle: u64 },
    /// The node is stopped.
    Stopped,
    /// There was no memory for the rows of the next cycle. The node stands between two cycles, and the call may be
    /// made again.
    NoMemory,
}

/// One node: its processor, its memories, and the rows that it made. A contract sees the cycle that it has reached,
/// whether it is in the middle of a cycle that samples the air, its state, and its rows.
pub struct Node {
    pub(crate) cycle: u64,
    pub(crate) asking: bool,
    pub(crate) machine: Machine,
}

// By hand, so that an exit that lets go of one, here and in the crates above, has one call to prove.
impl Drop for Node {
    fn drop(self) {
        let Node {
            cycle: _,
            asking: _,
            machine: _,
        } = self;
    }
}

impl Model for Node {
    ghost use Rattle.air_base.specs.NodeRun.{Timed};
    ghost use Rattle.node_core.specs.declared.row.Row.{Row};
    ghost use Rattle.node_core.specs.State.{NodeState};
    ghost use Rattle.node_core.specs.Shown.{shown};
    ghost use Rattle.node_core.specs.Inside.{IsWhole};

    ghost Value = { Timed NodeState Row };

    ghost view = { λ a. record { cycle = a.cycle; asking = a.asking; state = shown a.machine; rows = a.machine.rows.items } };

    ghost invariant = { λ a. IsWhole a.cycle a.asking a.machine };
}

impl Node {
    /// A node at reset, before cycle 0, with the program memory of `program`. `script` says which bytes arrive at its
    /// USART0; its Instr and Enter rows exist in the cycles from `window.0` on and below `window.1`; a byte takes its
    /// radio `byte_time` cycles, 256 to 4,096.
    pub fn new(
        alloc: Global,
        number: u8,
        program: Program,
        script: Script,
        window: (u64, u64),
        byte_time: u64,
    ) -> Result<Node, NoMemory>
        requires window { window.0 ≤ window.1 }
        requires least { SHORTEST_BYTE ≤ byte_time }
        requires most { byte_time ≤ LONGEST_BYTE }
        ensures { IfOk result (λ node. node ≡ record { cycle = 0; asking = false; state = reset number program.bytes script window.0 window.1 byte_time; rows = [] }) }
    {
        let bus = NodeBus::new(alloc, byte_time)?;
        Ok(Node {
            cycle: 0,
            asking: false,
            machine: Machine {
                number,
                program,
                script,
                from: window.0,
                to: window.1,
                cpu: Cpu::new(),
                bus,
                wait: 0,
                owed: false,
                asleep: false,
                stop: None,
                count: 0,
                rows: Vec::new(alloc),
            },
        })
    }

    /// Runs the cycles below `cycle` (at most 2^40), and stops early at the first one that sends, samples the air or
    /// stops the node. An instruction is executed at once in its first cycle; its waiting cycles, and sleep, are passed
    /// in leaps.
    pub fn run_until(&mut self, cycle: u64) -> Reached
        requires ahead { self.old.cycle ≤ cycle }
        requires early { cycle ≤ LAST_CYCLE }
        requires calm { self.old.asking ≡ false }
        ensures { IsReached self.old cycle result self.new }
    {
        while self.cycle < cycle {
            if self.machine.stop.is_some() {
                return Reached::Stopped;
            }
            self.cycle += self.machine.rest(self.cycle, cycle - self.cycle);
            let at = self.cycle;
            if at == cycle {
                return Reached::Cycle;
            }
            if self.machine.rows.reserve(ROWS_OF_A_CYCLE).is_err() {
                return Reached::NoMemory;
            }
            let at = at + self.machine.stride(at, cycle - at);
            match self.machine.conclude(at) {
                OnAir::Quiet => self.cycle = at + 1,
                OnAir::Sent { byte } => {
                    self.cycle = at + 1;
                    return Reached::Sent { cycle: at, byte };
                }
                OnAir::Asks => {
                    self.cycle = at;
                    self.asking = true;
                    return Reached::Ask { cycle: at };
                }
            }
        }
        if self.machine.stop.is_some() {
            Reached::Stopped
        } else {
            Reached::Cycle
        }
    }

    /// Passes cycles below `cycle` (at most 2^40) in which it only waits or sleeps: none where the next one is another.
    pub fn rest_until(&mut self, cycle: u64)
        requires ahead { self.old.cycle ≤ cycle }
        requires early { cycle ≤ LAST_CYCLE }
        requires calm { self.old.asking ≡ false }
        requires going { self.old.state.stop ≡ None }
        ensures rests { Rests node_kind self.old self.new.cycle self.new }
        ensures within { self.new.cycle ≤ cycle }
        ensures only { OnlyRests self.old.cycle (self.new.cycle - self.old.cycle) self.old.state }
        ensures rows { self.new.rows ≡ self.old.rows }
    {
        self.cycle += self.machine.rest(self.cycle, cycle - self.cycle);
    }

    /// The word address of the instruction that begins in its next cycle, where one does.
    pub fn begun(&self) -> Option<u16>
        ensures { result ≡ begun_at self.now.state }
    {
        let machine = &self.machine;
        if machine.stop.is_some() || machine.wait > 0 || machine.asleep {
            return None;
        }
        if !machine.owed && machine.due().is_some() {
            return None;
        }
        Some(machine.cpu.pc)
    }

    /// Finishes the cycle that samples the air, with what was heard.
    pub fn answer(&mut self, h: Heard)
        requires { self.old.asking ≡ true }
        ensures { self.new ≡ answered node_kind self.old h }
    {
        self.machine.finish(self.cycle, h);
        self.asking = false;
        self.cycle += 1;
    }

    /// How many cycles it has finished.
    pub fn cycle(&self) -> u64
        ensures { result ≡ self.now.cycle }
    {
        self.cycle
    }

    /// Whether it is in the middle of a cycle that samples the air.
    pub fn asking(&self) -> bool
        ensures { result ≡ self.now.asking }
    {
        self.asking
    }

    /// Why it stopped, where it did.
    pub fn stopped(&self) -> Option<StopCause>
        ensures { result ≡ self.now.state.stop }
    {
        self.machine.stop
    }

    /// Whether it sleeps.
    pub fn asleep(&self) -> bool
        ensures { result ≡ self.now.state.asleep }
    {
        self.machine.asleep
    }

    /// The registers of its core.
    pub fn cpu(&self) -> &Cpu
        ensures { result.now ≡ self.now.state.cpu }
    {
        &self.machine.cpu
    }

    /// The byte of its SRAM at the data address `at`, 0x0100 to 0x10FF.
    pub fn sram(&self, at: u16) -> u8
        requires low { SRAM_START ≤ at }
        requires high { at ≤ SRAM_LAST }
        ensures { result ≡ slice_index self.now.state.sram (at - SRAM_START) }
    {
        self.machine.bus.sram.get(at)
    }

    /// How many instructions it executed. One that stops the node is not counted.
    pub fn instructions(&self) -> u64
        ensures { result ≡ self.now.state.count }
    {
        self.machine.count
    }

    /// The rows so far.
    pub fn rows(&self) -> &[Row]
        ensures { result.now ≡ self.now.rows }
    {
        &self.machine.rows
    }

    /// Its rows since they were last taken. No sample is to be unanswered.
    pub fn take_rows(&mut self) -> Vec<Row>
        requires { self.old.asking ≡ false }
        ensures rows { result.items ≡ self.old.rows }
        ensures left { self.new ≡ record self.old { rows = [] } }
    {
        let alloc = *self.machine.rows.allocator();
        mem::replace(&mut self.machine.rows, Vec::new(alloc))
    }

    /// The last row of a run up to the cycle limit `limit`.
    pub fn end_row(&self, limit: u64) -> Row
        ensures { result ≡ end_row limit self.now.state }
    {
        let state = if self.machine.stop.is_some() {
            NodeEnd::Stopped
        } else if self.machine.asleep {
            NodeEnd::Asleep
        } else {
            NodeEnd::Running
        };
        Row {
            cycle: limit,
            node: self.machine.number,
            kind: Kind::End {
                state,
                instructions: self.machine.count,
            },
        }
    }

    /// Its rows, for good. For stored cases: a run takes them as it goes.
    pub fn into_rows(self) -> Vec<Row>
        ensures { result.items ≡ self.rows }
    {
        let Node {
            cycle: _,
            asking: _,
            machine,
        } = self;
        machine.rows
    }
}
