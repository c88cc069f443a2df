// The firmware of a sample's nodes.
ghost use Rattle.std.specs.Prelude.{◌≡◌, ◌≤◌, IfOk};
ghost use Rattle.ihex_loader.specs.Flash.{image_of_words};
ghost use Rattle.sample_maker.specs.Ring.{ldi, ring_words};

use avr_base::NoMemory;
use ihex_loader::{Flash, flash_of};
use std::alloc::Global;

// `ldi rD, K`, with D from 16 to 31 (AVR Instruction Set Manual, "LDI").
fn ldi(d: u8, k: u8) -> u16
    requires low { 16 ≤ d }
    requires high { d ≤ 31 }
    ensures { result ≡ ldi d k }
{
    0xE000 + 256 * u16::from(k / 16) + 16 * u16::from(d - 16) + u16::from(k % 16)
}

// The words of the firmware.
#[tactic(auto, unfolding(crate::specs::Ring::ring_words))]
fn ring_words(byte: u8, rounds: u8) -> [u16; 30]
    ensures { result ≡ ring_words byte rounds }
{
    [
        0xE100,
        0xBF0E,
        0xEF0F,
        0xBF0D,
        0xE001,
        0xBB07,
        0xE500,
        0xB90D,
        ldi(17, byte),
        ldi(19, rounds),
        0x953A,
        0xF7F1,
        0xE001,
        0xD00B,
        0x2F01,
        0xD009,
        0xE002,
        0xD007,
        0xD006,
        0xD005,
        0x2F20,
        0xD003,
        0x0F12,
        0x9513,
        0xCFF3,
        0xB90F,
        0x9B77,
        0xCFFE,
        0xB10F,
        0x9508,
    ]
}

/// The program memory of a node that gives its radio a byte to send and then samples the air, each 272 cycles without
/// end: `byte` at first, after so many rounds of waiting of 3 cycles, and then the byte before, what it heard and 1 in
/// all, modulo 256. `Err` only for want of memory.
pub fn ring_image(alloc: Global, byte: u8, rounds: u8) -> Result<Flash, NoMemory>
    ensures { IfOk result (λ flash. flash ≡ image_of_words (ring_words byte rounds)) }
{
    flash_of(alloc, &ring_words(byte, rounds))
}
