// A node of its numbers, its kept I/O bytes and its SRAM.
ghost use Rattle.std.specs.Prelude.{◌≡◌, ◌≤◌, [], false, None, IfOk, IfErr, OnOk, length, take};
ghost use Rattle.air_base.specs.Bounds.{LAST_CYCLE};
ghost use Rattle.air_base.specs.declared.bounds.TheConstants.{LONGEST_BYTE, SHORTEST_BYTE};
ghost use Rattle.data_space.specs.declared.regions.TheConstants.{IO_COUNT};
ghost use Rattle.device_base.specs.Numbers.{part};
ghost use Rattle.node_core.specs.Restored.{cpu_of, fault_of, IsCore, IsRefused, IsRestored};
ghost use Rattle.node_core.specs.State.{NodeState};

use crate::machine::Machine;
use crate::numbers::ends_from;
use crate::{Node, NodeBus};
use avr_base::{IO_START, NoMemory, Sreg, StopCause};
use avr_program::Program;
use board_io::{Board, LaggingBoard, first_refused};
use data_space::{Cpu, SRAM_LEN, SRAM_START, Sram};
use device_base::{CORE_NUMBERS, NUMBERS, part};
use serial_ports::Script;
use std::alloc::Global;

/// Why a node is not restored.
#[derive(Clone, Copy, PartialEq, Eq, Debug)]
pub enum RestoreFault {
    /// A number is outside its bound, the first of them at this place, 0 to 107.
    Number {
        /// The place.
        place: u8,
    },
    /// An I/O byte is one that its register can never have, the first of them at this data address, 0x20 to 0xFF.
    Io {
        /// The address.
        at: u16,
    },
    /// There was no memory.
    NoMemory,
}

// The general registers of their numbers.
fn registers_of(numbers: &[u64; NUMBERS]) -> [u8; 32]
    requires { IsCore numbers.now }
    ensures { result ≡ take 32 numbers.now }
{
    let mut r = [0; 32];
    for d in 0..32 {
        r[d] = numbers[d] as u8;
    }
    r
}

// An SRAM of 4,096 bytes.
fn filled(alloc: Global, bytes: &[u8]) -> Result<Sram, NoMemory>
    requires { length bytes.now ≡ SRAM_LEN }
    ensures { IfOk result (λ sram. sram ≡ bytes.now) }
{
    let mut sram = Sram::new(alloc)?;
    for k in 0..SRAM_LEN {
        sram.put(SRAM_START + k as u16, bytes[k]);
    }
    Ok(sram)
}

// The core of its numbers.
fn cpu_of(numbers: &[u64; NUMBERS]) -> Cpu
    requires { IsCore numbers.now }
    ensures { result ≡ cpu_of numbers.now }
{
    Cpu {
        r: registers_of(numbers),
        sreg: Sreg {
            bits: numbers[32] as u8,
        },
        sp: numbers[33] as u16,
        pc: numbers[34] as u16,
        rampz: numbers[35] == 1,
    }
}

impl Node {
    /// Why [`Node::restore`] refuses these `numbers` and 224 bytes `io` at the cycle `cycle`, whatever memory there is.
    pub fn fault(cycle: u64, numbers: &[u64; NUMBERS], io: &[u8]) -> Option<RestoreFault>
        requires { length io.now ≡ IO_COUNT }
        ensures { result ≡ fault_of cycle numbers.now io.now }
    {
        if let Some(place) = Node::first_outside(cycle, numbers) {
            return Some(RestoreFault::Number { place });
        }
        let place = first_refused(io)?;
        Some(RestoreFault::Io {
            at: IO_START + place as u16,
        })
    }

    /// The node that has these `numbers`, in the order of [`Node::numbers`], these 224 bytes `io` that its board keeps,
    /// from data address 0x20 on, and these 4,096 bytes `sram`, with no rows, at the cycle `cycle`, at most 2^40. Its
    /// number, program, script, window and byte time are as for [`Node::new`]. A number outside its bound is refused,
    /// the first of them first; then a byte that its register can never have.
    pub fn restore(
        alloc: Global,
        number: u8,
        program: Program,
        script: Script,
        window: (u64, u64),
        byte_time: u64,
        cycle: u64,
        numbers: &[u64; NUMBERS],
        io: &[u8],
        sram: &[u8],
    ) -> Result<Node, RestoreFault>
        requires window { window.0 ≤ window.1 }
        requires least { SHORTEST_BYTE ≤ byte_time }
        requires most { byte_time ≤ LONGEST_BYTE }
        requires cycle { cycle ≤ LAST_CYCLE }
        requires io { length io.now ≡ IO_COUNT }
        requires sram { length sram.now ≡ SRAM_LEN }
        ensures refused { IfErr result (λ fault. IsRefused cycle numbers.now io.now fault) }
        ensures sound { OnOk result (fault_of cycle numbers.now io.now ≡ None) }
        ensures node { IfOk result (λ node. node ≡ record { cycle = cycle; asking = false; state = node.state; rows = [] }) }
        ensures state { IfOk result (λ node. IsRestored number program.bytes script window.0 window.1 byte_time numbers.now io.now sram.now node.state) }
        ensures one { (s : NodeState) → IsRestored number program.bytes script window.0 window.1 byte_time numbers.now io.now sram.now s → IfOk result (λ node. node.state ≡ s) }
    {
        if let Some(fault) = Node::fault(cycle, numbers, io) {
            return Err(fault);
        }
        let made = Node::restored(
            alloc, number, program, script, window, byte_time, cycle, numbers, io, sram,
        );
        match made {
            Ok(node) => Ok(node),
            Err(_) => Err(RestoreFault::NoMemory),
        }
    }

    /// The node that [`Node::restore`] makes, where `fault` has found none: nothing is tested again.
    pub fn restored(
        alloc: Global,
        number: u8,
        program: Program,
        script: Script,
        window: (u64, u64),
        byte_time: u64,
        cycle: u64,
        numbers: &[u64; NUMBERS],
        io: &[u8],
        sram: &[u8],
    ) -> Result<Node, NoMemory>
        requires window { window.0 ≤ window.1 }
        requires least { SHORTEST_BYTE ≤ byte_time }
        requires most { byte_time ≤ LONGEST_BYTE }
        requires cycle { cycle ≤ LAST_CYCLE }
        requires io { length io.now ≡ IO_COUNT }
        requires sram { length sram.now ≡ SRAM_LEN }
        requires sound { fault_of cycle numbers.now io.now ≡ None }
        ensures node { IfOk result (λ node. node ≡ record { cycle = cycle; asking = false; state = node.state; rows = [] }) }
        ensures state { IfOk result (λ node. IsRestored number program.bytes script window.0 window.1 byte_time numbers.now io.now sram.now node.state) }
        ensures one { (s : NodeState) → IsRestored number program.bytes script window.0 window.1 byte_time numbers.now io.now sram.now s → IfOk result (λ node. node.state ≡ s) }
    {
        let ends_from = ends_from(cycle, numbers);
        let Some(board) = Board::restore(byte_time, ends_from, &part(numbers, CORE_NUMBERS), io)
        else {
            unreachable!();
        };
        let sram = filled(alloc, sram)?;
        Ok(Node {
            cycle,
            asking: false,
            machine: Machine {
                number,
                program,
                script,
                from: window.0,
                to: window.1,
                cpu: cpu_of(numbers),
                bus: NodeBus {
                    sram,
                    io: LaggingBoard::restored(board, cycle),
                },
                wait: numbers[36] as u8,
                owed: numbers[37] == 1,
                asleep: numbers[38] == 1,
                stop: StopCause::of(numbers[39]),
                count: numbers[40],
                rows: Vec::new(alloc),
            },
        })
    }
}
