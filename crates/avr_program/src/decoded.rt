// A flash and its instructions.
ghost use Rattle.std.specs.Prelude.{◌≡◌, IfOk};
ghost use Rattle.avr_program.specs.Program.{op_of, slots_below};

use avr_base::NoMemory;
use avr_decoder::{Op, decode};
use ihex_loader::Flash;
use std::alloc::{AllocError, Global};
use std::marker::Model;

/// An instruction, filled up to eight bytes, so that the host finds the one at an address by a shift.
#[derive(Clone, Copy)]
pub struct Slot {
    pub op: Op,
    pub fill: u16,
}

// How many words a program memory has.
const WORDS: usize = 65_536;

// The word of erased flash.
const ERASED: u16 = 0xFFFF;

/// The flash of a node, and the instruction at each of its word addresses. A contract sees it as its flash.
pub struct Decoded {
    flash: Flash,
    slots: Vec<Slot>,
}

// By hand, so that an exit that lets go of one, here and in the crates above, has one call to prove.
impl Drop for Decoded {
    fn drop(self) {
        let Decoded { flash: _, slots: _ } = self;
    }
}

impl Model for Decoded {
    ghost use Rattle.std.specs.Prelude.{◌≡◌};
    ghost use Rattle.ihex_loader.specs.Flash.{Image};
    ghost use Rattle.avr_program.specs.Program.{slots_below};

    ghost Value = { Image };

    ghost view = { λ p. p.flash };

    ghost invariant = { λ p. p.slots.items ≡ slots_below 65536 p.flash.bytes };
}

// The instruction at a word address. Erased words, most of a flash, are no instruction: they need no decoding.
#[tactic(auto, using(avr_decoder::proofs::Branches::bit_reserved))]
fn op_in(flash: &Flash, pc: u16) -> Op
    ensures { result ≡ op_of flash.now.bytes pc }
{
    let word = flash.word(pc);
    if word == ERASED {
        return Op::Reserved { word };
    }
    decode(word, flash.word(pc.wrapping_add(1)))
}

// The instruction at each word address.
fn slots_of(alloc: Global, flash: &Flash) -> Result<Vec<Slot>, AllocError>
    ensures { IfOk result (λ slots. slots.items ≡ slots_below 65536 flash.now.bytes) }
{
    let mut slots = Vec::with_capacity(alloc, WORDS)?;
    for pc in 0..WORDS {
        let op = op_in(flash, pc as u16);
        slots.push(Slot { op, fill: 0 })?;
    }
    Ok(slots)
}

impl Decoded {
    /// The instructions of a flash. `Err` only for want of memory.
    pub fn new(alloc: Global, flash: Flash) -> Result<Decoded, NoMemory>
        ensures { IfOk result (λ decoded. decoded ≡ flash) }
    {
        let slots = slots_of(alloc, &flash)?;
        Ok(Decoded { flash, slots })
    }

    /// Its flash.
    #[inline]
    pub fn flash(&self) -> &Flash
        ensures { result.now ≡ self.now }
    {
        &self.flash
    }

    /// What is at each word address.
    #[inline]
    pub fn slots(&self) -> &[Slot]
        ensures { result.now ≡ slots_below 65536 self.now.bytes }
    {
        &self.slots
    }
}
