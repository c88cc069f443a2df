// The internal SRAM.
ghost use Rattle.std.specs.Prelude.{◌≡◌, ◌-◌, ◌≤◌, length, IfOk, slice_index, slice_set};
ghost use Rattle.data_space.specs.Memory.{zeros};
ghost use Rattle.data_space.specs.declared.regions.TheConstants.{SRAM_LAST};

use crate::regions::{SRAM_LEN, SRAM_START};
use avr_base::NoMemory;
use std::alloc::{AllocError, Global};
use std::marker::Model;

/// The internal SRAM, 4,096 bytes at data addresses 0x0100 to 0x10FF (ATmega128 datasheet, "SRAM Data Memory"). A
/// contract sees it as the list of its bytes.
#[derive(Drop)]
pub struct Sram {
    bytes: Vec<u8>,
}

impl Model for Sram {
    ghost use Rattle.std.specs.Prelude.{◌≡◌, ℕ, List, length};
    ghost use Rattle.data_space.specs.declared.regions.TheConstants.{SRAM_LEN};

    ghost Value = { List ℕ };

    ghost view = { λ s. s.bytes.items };

    ghost invariant = { λ s. length s.bytes.items ≡ SRAM_LEN };
}

// A vector of bytes 0.
#[tactic(auto, unfolding(crate::specs::Memory::zeros))]
fn zeroed(alloc: Global, len: usize) -> Result<Vec<u8>, AllocError>
    ensures items { IfOk result (λ bytes. bytes.items ≡ zeros len) }
    ensures len { IfOk result (λ bytes. length bytes.items ≡ len) }
{
    vec![in alloc; 0; len]
}

impl Sram {
    /// An SRAM of bytes 0. `Err` only for want of memory.
    pub fn new(alloc: Global) -> Result<Self, NoMemory>
        ensures { IfOk result (λ sram. sram ≡ zeros SRAM_LEN) }
    {
        let bytes = zeroed(alloc, SRAM_LEN)?;
        Ok(Sram { bytes })
    }

    /// The byte at the data address `at`, 0x0100 to 0x10FF.
    #[inline]
    pub fn get(&self, at: u16) -> u8
        requires low { SRAM_START ≤ at }
        requires high { at ≤ SRAM_LAST }
        ensures { result ≡ slice_index self.now (at - SRAM_START) }
    {
        self.bytes[usize::from(at - SRAM_START)]
    }

    /// Puts a byte at the data address `at`, 0x0100 to 0x10FF. Nothing else changes.
    #[inline]
    pub fn put(&mut self, at: u16, b: u8)
        requires low { SRAM_START ≤ at }
        requires high { at ≤ SRAM_LAST }
        ensures { self.new ≡ slice_set self.old (at - SRAM_START) b }
    {
        self.bytes[usize::from(at - SRAM_START)] = b;
    }
}
