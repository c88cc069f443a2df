// A program that nodes share.
ghost use Rattle.std.specs.Prelude.{◌≡◌, IfOk};
ghost use Rattle.ihex_loader.specs.Flash.{word_at};
ghost use Rattle.avr_program.specs.Program.{op_of, slots_below};

use crate::decoded::{Decoded, Slot};
use avr_base::NoMemory;
use avr_decoder::Op;
use ihex_loader::{Flash, ProgramMemory};
use std::alloc::Global;
use std::marker::Model;
use std::sync::Arc;

/// The flash of a node, and the instruction at each of its 65,536 word addresses, decoded once: 8 bytes an instruction,
/// so 512 KiB a program beside the 128 KiB of the flash. Nodes with equal images hold one of them together, also in
/// several threads: it is never written. A contract sees it as its flash.
pub struct Program {
    decoded: Arc<Decoded>,
}

// By hand, so that an exit that lets go of one, here and in the crates above, has one call to prove.
impl Drop for Program {
    fn drop(self) {
        let Program { decoded: _ } = self;
    }
}

impl Model for Program {
    ghost use Rattle.std.specs.Arc.{arc_value};
    ghost use Rattle.ihex_loader.specs.Flash.{Image};

    ghost Value = { Image };

    ghost view = { λ p. arc_value p.decoded };
}

impl Program {
    /// The program of a flash. `Err` only for want of memory.
    pub fn new(alloc: Global, flash: Flash) -> Result<Program, NoMemory>
        ensures { IfOk result (λ program. program ≡ flash) }
    {
        match Arc::new(alloc, Decoded::new(alloc, flash)?) {
            Ok(decoded) => Ok(Program { decoded }),
            Err(_) => Err(NoMemory),
        }
    }

    /// The program of a flash, shared with the first of `known` that has this flash; a new one where none has. `Err`
    /// only for want of memory.
    pub fn among(alloc: Global, known: &[Program], flash: Flash) -> Result<Program, NoMemory>
        ensures { IfOk result (λ program. program ≡ flash) }
    {
        for program in known {
            if program.flash().is(&flash) {
                return program.share();
            }
        }
        Program::new(alloc, flash)
    }

    /// An equal program, for one node more, over the same flash and instructions in memory. `Err` only for want of
    /// memory.
    pub fn share(&self) -> Result<Program, NoMemory>
        ensures { IfOk result (λ program. program ≡ self.now) }
    {
        match Arc::try_clone(&self.decoded) {
            Ok(decoded) => Ok(Program { decoded }),
            Err(_) => Err(NoMemory),
        }
    }

    /// Its flash.
    #[inline]
    pub fn flash(&self) -> &Flash
        ensures { result.now ≡ self.now }
    {
        self.decoded.flash()
    }

    /// The word at the word address `pc`: the byte at 2 `pc`, and 256 times the one behind it.
    #[inline]
    pub fn word(&self, pc: u16) -> u16
        ensures { result ≡ word_at self.now.bytes pc }
    {
        self.flash().word(pc)
    }

    /// What is at each word address, for many calls of `op_at` in a row.
    #[inline]
    pub fn slots(&self) -> &[Slot]
        ensures { result.now ≡ slots_below 65536 self.now.bytes }
    {
        self.decoded.slots()
    }

    /// The instruction whose first word is at the word address `pc`, from its `slots`: one index. After word 0xFFFF
    /// comes word 0.
    #[inline(always)]
    pub fn op_at<'a>(&self, slots: &'a [Slot], pc: u16) -> &'a Op
        requires { slots.now ≡ slots_below 65536 self.now.bytes }
        ensures { result.now ≡ op_of self.now.bytes pc }
    {
        &slots[usize::from(pc)].op
    }

    /// The instruction whose first word is at the word address `pc`. After word 0xFFFF comes word 0.
    #[inline]
    pub fn op(&self, pc: u16) -> Op
        ensures { result ≡ op_of self.now.bytes pc }
    {
        *self.op_at(self.slots(), pc)
    }
}

impl ProgramMemory for Program {
    ghost image = { λ p. p };

    #[inline]
    fn as_flash(&self) -> &Flash {
        self.flash()
    }
}
