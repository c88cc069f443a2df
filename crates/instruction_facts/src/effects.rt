// Cases of one instruction, or of one access to the data space, on a machine.
use crate::machine::Machine;
use crate::numbers::hex;
use avr_base::{Reg, StopCause};
use avr_decoder::{Class, decode};
use avr_program::Program;
use data_space::{Cpu, Sram, pair, reg, set_pair, set_reg};
use std::alloc::{AllocError, Global};

/// What an instruction or an access reports: its cycles, or the byte or word that it read, and whether it was SLEEP;
/// `None` is the stop of an access past the memory.
#[derive(Clone, Copy, PartialEq, Eq)]
pub struct Report {
    value: Option<u16>,
    sleep: bool,
}

impl Report {
    /// The report that a word tells: `stop`, `sleep` (of one cycle), or a number.
    pub fn read(word: &str) -> Option<Self> {
        if word == "stop" {
            return Some(STOP);
        }
        if word == "sleep" {
            return Some(Report {
                value: Some(1),
                sleep: true,
            });
        }
        Some(of_number(hex(word)?))
    }
}

const STOP: Report = Report {
    value: None,
    sleep: false,
};

fn of_number(n: u16) -> Report {
    Report {
        value: Some(n),
        sleep: false,
    }
}

// A stop by another cause is no report.
fn of_stop(cause: StopCause) -> Option<Report> {
    if cause == StopCause::PastMemory {
        Some(STOP)
    } else {
        None
    }
}

/// Executes the instruction of a word and the word behind it, where it is of the class that `class` names.
pub fn execute(
    class: &str,
    word: u16,
    next: u16,
    program: &Program,
    m: &mut Machine,
) -> Option<Report> {
    let op = decode(word, next);
    let named = match op.class() {
        Class::Arith => "arith",
        Class::Flow => "flow",
        Class::Memory => "memory",
        Class::Halting(_) => "halting",
    };
    if class != named {
        return None;
    }
    match node_core::execute(&op, program, &mut m.cpu, &mut m.memory) {
        Ok(done) => Some(Report {
            value: Some(u16::from(done.cycles)),
            sleep: done.sleep,
        }),
        Err(cause) => of_stop(cause),
    }
}

/// Stores a byte, and loads it again: the report is the byte that was loaded, or that both stop.
pub fn keep(at: u16, byte: u8, m: &mut Machine) -> Option<Report> {
    let stored = m.store(at, byte);
    match m.load(at) {
        Ok(read) if stored.is_ok() => Some(of_number(u16::from(read))),
        Err(cause) if stored.is_err() => of_stop(cause),
        _ => None,
    }
}

/// Pushes a byte: the report is 0, or a stop.
pub fn push_byte(byte: u8, m: &mut Machine) -> Option<Report> {
    match m.push(byte) {
        Ok(()) => Some(of_number(0)),
        Err(cause) => of_stop(cause),
    }
}

/// Pops a byte: the report is the byte, or a stop.
pub fn pop_byte(m: &mut Machine) -> Option<Report> {
    match m.pop() {
        Ok(byte) => Some(of_number(u16::from(byte))),
        Err(cause) => of_stop(cause),
    }
}

/// Puts a byte into register `d`, and reads it back; `None` where there is no such register.
pub fn keep_in_register(d: u8, byte: u8, m: &mut Machine) -> Option<Report> {
    let d = Reg::new(d)?;
    let (mut regs, core) = m.cpu.parts();
    set_reg(&mut regs, d, byte);
    m.cpu = Cpu::of_parts(&regs, core);
    Some(of_number(u16::from(reg(&regs, d))))
}

/// Puts a word into the pair of register `d`, and reads it back; `None` where there is no such register.
pub fn keep_in_pair(d: u8, word: u16, m: &mut Machine) -> Option<Report> {
    let d = Reg::new(d)?;
    let (mut regs, core) = m.cpu.parts();
    set_pair(&mut regs, d, word);
    m.cpu = Cpu::of_parts(&regs, core);
    Some(of_number(pair(&regs, d)))
}

/// Moves the program counter on by so many words: the report is 0.
pub fn advance(words: u16, m: &mut Machine) -> Report {
    let (regs, mut core) = m.cpu.parts();
    core.advance(words);
    m.cpu = Cpu::of_parts(&regs, core);
    of_number(0)
}

/// The byte at `from` of a new SRAM in which `byte` was put at `at`.
pub fn keep_in_sram(alloc: Global, at: u16, byte: u8, from: u16) -> Result<Option<u8>, AllocError> {
    if at < 0x0100 || at > 0x10FF || from < 0x0100 || from > 0x10FF {
        return Ok(None);
    }
    let Ok(mut sram) = Sram::new(alloc) else {
        return Err(AllocError);
    };
    sram.put(at, byte);
    Ok(Some(sram.get(from)))
}
