// The flash of a node.
ghost use Rattle.std.specs.Prelude.{◌≡◌, ℕ, ◌+◌, ◌-◌, ◌*◌, ◌<◌, ◌≤◌, ◌==◌, List, [], max, length, slice_index, IfOk, Decides};
ghost use Rattle.ihex_loader.specs.Flash.{byte_at, bytes_of_words, word_at, padded, image_of_words};
ghost use Rattle.ihex_loader.specs.Image.{placed, last_put};

use avr_base::NoMemory;
use std::alloc::{AllocError, Global};
use std::marker::Model;

/// The bytes of flash of the ATmega128 (ATmega128 datasheet, "In-System Reprogrammable Flash Program Memory").
pub const FLASH_BYTES: usize = 131_072;

/// The flash of a node: 131,072 bytes, and how far they were given. A contract sees it as its `Image`.
pub struct Flash {
    bytes: Vec<u8>,
    used: u32,
}

// By hand, so that an exit that lets go of one, here and in the crates above, has one call to prove.
impl Drop for Flash {
    fn drop(self) {
        let Flash { bytes: _, used: _ } = self;
    }
}

impl Model for Flash {
    ghost use Rattle.std.specs.Prelude.{◌≡◌, ◌≤◌, length};
    ghost use Rattle.ihex_loader.specs.Flash.{Image};

    ghost Value = { Image };

    ghost view = { λ f. record { bytes = f.bytes.items; used = f.used } };

    ghost invariant = { λ f. (length f.bytes.items ≡ 131072) × (f.used ≤ 131072) };
}

/// What holds a flash, as a program with its instructions decoded does.
pub trait ProgramMemory {
    ghost use Rattle.std.specs.Prelude.{◌≡◌};
    ghost use Rattle.ihex_loader.specs.Flash.{Image};

    /// What that flash is.
    ghost image: { Self → Image };

    /// The flash.
    fn as_flash(&self) -> &Flash
        ensures { result.now ≡ image self.now };
}

impl Flash {
    /// The byte at the byte address `a`, which is below 131,072.
    #[inline]
    pub fn byte(&self, a: u32) -> u8
        requires { a < 131072 }
        ensures { result ≡ byte_at self.now.bytes a }
    {
        self.bytes[a as usize]
    }

    /// The word at the word address `pc`: the byte at 2 `pc`, and 256 times the one behind it.
    #[inline]
    pub fn word(&self, pc: u16) -> u16
        ensures { result ≡ word_at self.now.bytes pc }
    {
        let at = 2 * usize::from(pc);
        u16::from(self.bytes[at]) + 256 * u16::from(self.bytes[at + 1])
    }

    /// One more than the highest byte address that the image gave, at most 131,072; 0 where it gave none.
    #[inline]
    pub fn used(&self) -> u32
        ensures value { result ≡ self.now.used }
        ensures small { result ≤ 131072 }
    {
        self.used
    }

    /// Whether `other` has the same bytes, given as far.
    pub fn is(&self, other: &Flash) -> bool
        ensures { Decides result (self.now ≡ other.now) }
    {
        self.used == other.used && self.bytes.as_slice() == other.bytes.as_slice()
    }

    /// A flash that no image has given a byte yet: 0xFF everywhere.
    pub(super) fn erased(alloc: Global) -> Result<Flash, AllocError>
        ensures len { IfOk result (λ flash. length flash.bytes ≡ 131072) }
        ensures erased { IfOk result (λ flash. flash ≡ image_of_words []) }
    {
        Ok(Flash {
            bytes: padded_to(Vec::new(alloc), FLASH_BYTES)?,
            used: 0,
        })
    }

    /// Puts bytes, at least one, at the byte addresses from `at` on.
    pub(super) fn put(&mut self, at: usize, bytes: &[u8])
        requires some { 0 < length bytes.now }
        requires within { at + length bytes.now ≤ 131072 }
        ensures len { length self.new.bytes ≡ 131072 }
        ensures each { (a : ℕ) → byte_at self.new.bytes a ≡ last_put (byte_at self.old.bytes a) a (placed at bytes.now) }
        ensures used { self.new.used ≡ max self.old.used (at + length bytes.now) }
    {
        place(&mut self.bytes, at, bytes);
        self.used = self.used.max((at + bytes.len()) as u32);
    }

    /// An equal flash.
    pub fn copy(&self) -> Result<Flash, NoMemory>
        ensures { IfOk result (λ flash. flash ≡ self.now) }
    {
        Ok(Flash {
            bytes: self.bytes.clone()?,
            used: self.used,
        })
    }
}

/// The bytes of words, low byte first.
pub fn bytes_of(alloc: Global, words: &[u16]) -> Result<Vec<u8>, AllocError>
    requires { length words.now ≤ 65536 }
    ensures bytes { IfOk result (λ bytes. bytes.items ≡ bytes_of_words words.now) }
    ensures len { IfOk result (λ bytes. length bytes.items ≡ 2 * length words.now) }
{
    let mut bytes = Vec::with_capacity(alloc, 2 * words.len())?;
    for word in words {
        bytes.extend_from_slice(&word.to_le_bytes())?;
    }
    Ok(bytes)
}

/// The flash that has `words`, at most 65,536 of them, from word address 0 on, low byte first; behind them 0xFF.
pub fn flash_of(alloc: Global, words: &[u16]) -> Result<Flash, NoMemory>
    requires { length words.now ≤ 65536 }
    ensures image { IfOk result (λ flash. flash ≡ image_of_words words.now) }
    // so the words read back
    ensures words { IfOk result (λ flash. (pc : ℕ) → pc < length words.now → word_at flash.bytes pc ≡ slice_index words.now pc) }
{
    let bytes = bytes_of(alloc, words)?;
    Ok(Flash {
        used: bytes.len() as u32,
        bytes: padded_to(bytes, FLASH_BYTES)?,
    })
}

// Puts bytes into the list from place `at` on.
fn place(list: &mut Vec<u8>, at: usize, bytes: &[u8])
    requires { at + length bytes.now ≤ length list.old.items }
    ensures len { length list.new.items ≡ length list.old.items }
    ensures each { (a : ℕ) → slice_index list.new.items a ≡ last_put (slice_index list.old.items a) a (placed at bytes.now) }
{
    for (i, b) in bytes.iter().enumerate() {
        list[at + i] = *b;
    }
}

// The bytes, and behind them 0xFF up to `len` of them.
#[tactic(auto, unfolding(crate::specs::Flash::padded))]
fn padded_to(mut bytes: Vec<u8>, len: usize) -> Result<Vec<u8>, AllocError>
    requires { length bytes.items ≤ len }
    ensures bytes { IfOk result (λ all. all.items ≡ padded len bytes.items) }
    ensures len { IfOk result (λ all. length all.items ≡ len) }
{
    bytes.resize(len, 0xFF)?;
    Ok(bytes)
}
