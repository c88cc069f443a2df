// A core and a memory, on which the instructions of the cases run.
ghost use Rattle.std.specs.Prelude.{Ok, Err, ◌%◌, ◌&&◌, nat_le, if◌then◌else◌, slice_index, slice_set};
ghost use Rattle.avr_base.specs.declared.stop.StopCause.TheVariants.{PastMemory};

use crate::numbers::{hex, hex_byte};
use avr_base::StopCause;
use data_space::{Bus, Cpu};

/// The bytes at data addresses `from` to `to`, each kept at the low byte of its address; all else is past the memory.
#[derive(Clone, Copy, PartialEq, Eq)]
pub struct Memory {
    from: u16,
    to: u16,
    bytes: [u8; 256],
}

impl Memory {
    /// Each byte is the low byte of its address.
    pub fn new(from: u16, to: u16) -> Self {
        let mut bytes = [0; 256];
        for i in 0..=255u8 {
            bytes[usize::from(i)] = i;
        }
        Memory { from, to, bytes }
    }
}

impl Bus for Memory {
    ghost get_gives = { λ bus at. (if nat_le bus.from at && nat_le at bus.to then Ok (slice_index bus.bytes (at % 256), bus) else Err PastMemory) };

    ghost put_gives = { λ bus at b. (if nat_le bus.from at && nat_le at bus.to then Ok (record { from = bus.from; to = bus.to; bytes = slice_set bus.bytes (at % 256) b }) else Err PastMemory) };

    fn get(&mut self, at: u16) -> Result<u8, StopCause> {
        if self.from <= at && at <= self.to {
            Ok(self.bytes[usize::from(at % 256)])
        } else {
            Err(StopCause::PastMemory)
        }
    }

    fn put(&mut self, at: u16, b: u8) -> Result<(), StopCause> {
        if self.from <= at && at <= self.to {
            self.bytes[usize::from(at % 256)] = b;
            Ok(())
        } else {
            Err(StopCause::PastMemory)
        }
    }
}

/// A core and its memory.
#[derive(Clone, Copy, PartialEq, Eq)]
pub struct Machine {
    pub cpu: Cpu,
    pub memory: Memory,
}

impl Machine {
    /// The core after reset, over the memory of these addresses.
    pub fn new(from: u16, to: u16) -> Self {
        Machine {
            cpu: Cpu::default(),
            memory: Memory::new(from, to),
        }
    }

    /// Loads the byte at the data address `at`.
    pub fn load(&mut self, at: u16) -> Result<u8, StopCause> {
        let (regs, core) = self.cpu.parts();
        data_space::load(&regs, &core, &mut self.memory, at)
    }

    /// Stores the byte `b` at the data address `at`.
    pub fn store(&mut self, at: u16, b: u8) -> Result<(), StopCause> {
        let (mut regs, mut core) = self.cpu.parts();
        let stored = data_space::store(&mut regs, &mut core, &mut self.memory, at, b);
        self.cpu = Cpu::of_parts(&regs, core);
        stored
    }

    /// Pushes a byte.
    pub fn push(&mut self, b: u8) -> Result<(), StopCause> {
        let (mut regs, mut core) = self.cpu.parts();
        let pushed = data_space::push(&mut regs, &mut core, &mut self.memory, b);
        self.cpu = Cpu::of_parts(&regs, core);
        pushed
    }

    /// Pops a byte.
    pub fn pop(&mut self) -> Result<u8, StopCause> {
        let (mut regs, core) = self.cpu.parts();
        let popped = data_space::pop(&mut regs, &core, &mut self.memory);
        self.cpu = Cpu::of_parts(&regs, core);
        popped
    }

    // One setting: `pc=WORD`, or `ADDRESS=BYTE` of the data space, where the core's registers lie too.
    fn set(&mut self, setting: &str) -> Option<()> {
        let (at, value) = setting.split_once('=')?;
        if at == "pc" {
            self.cpu.pc = hex(value)?;
            return Some(());
        }
        self.store(hex(at)?, hex_byte(value)?).ok()
    }

    /// The machine with the settings in a text. `None` where a word is none.
    pub fn with(&self, settings: &str) -> Option<Machine> {
        let mut machine = *self;
        for setting in settings.split_whitespace() {
            machine.set(setting)?;
        }
        Some(machine)
    }
}
