// What is done to the board: its I/O registers, as the data space has them, its cycles and its interrupt lines.
ghost use Rattle.std.specs.Prelude.{◌≤◌, ◌^◌};
ghost use Rattle.air_base.specs.Bounds.{LAST_END};

use crate::answers::Answer;
use crate::numbers::{address, byte, cycle};
use air_base::Heard;
use avr_base::Vector;
use avr_timers::TimerFlags;
use board_io::{Board, Clock, ClockedBoard, OnAir};
use data_space::{Bus, Cpu, load, store};
use serial_ports::ReceiveBuffer;

/// A sample hears one byte.
pub const HEARD: Heard = Heard {
    status: 1,
    byte: 0x42,
    age: 3,
};

const ALL: TimerFlags = TimerFlags {
    tov: true,
    ocf_a: true,
    ocf_b: true,
    ocf_c: true,
    icf: true,
};

/// A core after reset, for its own registers, and the board in the cycle of an access.
#[derive(Drop)]
pub struct CoreAndBoard {
    cpu: Cpu,
    io: ClockedBoard,
}

impl CoreAndBoard {
    /// A core and a board at reset.
    pub fn new() -> Self {
        CoreAndBoard {
            cpu: Cpu::default(),
            io: ClockedBoard {
                clock: Clock::new(0),
                board: Board::new(512),
            },
        }
    }

    // At reset, but each flag of the devices is set, and USART0 has a byte.
    fn flagged() -> Self {
        let mut devices = CoreAndBoard::new();
        let board = &mut devices.io.board;
        board.t0.tov = true;
        board.t0.ocf_a = true;
        board.t1.flags = ALL;
        board.t2.tov = true;
        board.t2.ocf_a = true;
        board.t3.flags = ALL;
        board.spi.spif = true;
        board.usart.txc = true;
        board.usart.receive_buffer = ReceiveBuffer::One { first: 0x41 };
        devices
    }

    fn put(&mut self, at: u8, b: u8) -> Answer {
        let (mut regs, mut core) = self.cpu.parts();
        let stored = store(&mut regs, &mut core, &mut self.io, u16::from(at), b);
        self.cpu = Cpu::of_parts(&regs, core);
        Answer::of_put(stored)
    }

    fn get(&mut self, at: u8) -> Answer {
        let (regs, core) = self.cpu.parts();
        Answer::of_get(load(&regs, &core, &mut self.io, u16::from(at)))
    }

    // One cycle of the devices, in which nothing arrives; where the radio asks the air, it is answered.
    fn cycle(&mut self, at: u64) -> Answer
        requires { at ≤ LAST_END }
    {
        let begun = self.io.board.begin(at, None);
        match begun.air {
            OnAir::Asks => {
                self.io.board.answer(HEARD);
                Answer::Asks
            }
            OnAir::Sent { byte } => Answer::Sends(byte),
            OnAir::Quiet => Answer::Done,
        }
    }
}

fn ticks(devices: &mut CoreAndBoard, from: &str, n: &str) -> Option<Answer> {
    let (from, n) = (cycle(from)?, cycle(n)?);
    for i in 0..n {
        devices.cycle(from + i);
    }
    Some(Answer::Done)
}

// Accesses to registers.
fn do_registers(devices: &mut CoreAndBoard, words: &[&str]) -> Option<Answer> {
    match words {
        ["put", at, b] => Some(devices.put(byte(at)?, byte(b)?)),
        ["get", at] => Some(devices.get(byte(at)?)),
        ["bus", at, b] => Some(Answer::of_put(devices.io.put(address(at)?, byte(b)?))),
        ["at", c] => {
            devices.io.clock = Clock::new(cycle(c)?);
            Some(Answer::Done)
        }
        _ => None,
    }
}

// Cycles.
fn do_cycles(devices: &mut CoreAndBoard, words: &[&str]) -> Option<Answer> {
    match words {
        ["tick", from, n] => ticks(devices, from, n),
        ["cycle", c] => Some(devices.cycle(cycle(c)?)),
        ["leap", from, n] => {
            devices.io.board.leap(cycle(from)?, cycle(n)?);
            Some(Answer::Done)
        }
        ["quiet", from, most] => Some(Answer::Number(
            devices.io.board.quiet(cycle(from)?, cycle(most)?),
        )),
        ["same", from, most] => Some(Answer::Number(
            devices.io.board.same_lines(cycle(from)?, cycle(most)?),
        )),
        _ => None,
    }
}

// What the node around it asks and tells.
fn do_node(devices: &mut CoreAndBoard, words: &[&str]) -> Option<Answer> {
    match words {
        ["lines"] => Some(Answer::Lines(devices.io.board.lines().bits)),
        ["enter", word] => {
            devices.io.board.entered(Vector {
                word: address(word)?,
            });
            Some(Answer::Done)
        }
        ["sleep"] => Some(Answer::Sleep(devices.io.board.sleep_mode())),
        ["selected"] => Some(Answer::Truth(devices.io.board.selected())),
        _ => None,
    }
}

fn is_access(what: &str) -> bool {
    matches!(what, "put" | "get" | "bus" | "at")
}

fn is_asked(what: &str) -> bool {
    matches!(what, "lines" | "enter" | "sleep" | "selected")
}

/// What a line does to the board, and its answer; `None` where it is none of the forms.
pub fn do_board(devices: &mut CoreAndBoard, words: &[&str]) -> Option<Answer> {
    match words {
        ["new"] => {
            *devices = CoreAndBoard::new();
            Some(Answer::Done)
        }
        ["flagged"] => {
            *devices = CoreAndBoard::flagged();
            Some(Answer::Done)
        }
        [what, ..] if is_access(what) => do_registers(devices, words),
        [what, ..] if is_asked(what) => do_node(devices, words),
        _ => do_cycles(devices, words),
    }
}
