// Addresses: how they are spelled, and at which data addresses stands a byte that can be watched.
ghost use Rattle.std.specs.Prelude.{◌≡◌, ◌≤◌, ◌&&◌, nat_le, IfSome, true};
ghost use Rattle.std.specs.List.{list_any};
ghost use Rattle.data_space.specs.declared.regions.TheConstants.{SRAM_LAST};
ghost use Rattle.places_text.specs.Addresses.{address_of, digit_of, is_byte, is_core, is_within};

use data_space::{SRAM_LAST, SRAM_START};

// The data addresses of the I/O bytes that a board keeps and that can be another than 0: stretches of them, each by its
// first and its last.
static KEPT: [(u16, u16); 19] = [
    (0x22, 0x23),
    (0x26, 0x28),
    (0x31, 0x32),
    (0x34, 0x35),
    (0x37, 0x38),
    (0x3A, 0x3B),
    (0x3D, 0x40),
    (0x42, 0x42),
    (0x54, 0x55),
    (0x57, 0x57),
    (0x5A, 0x5A),
    (0x5C, 0x5C),
    (0x61, 0x62),
    (0x64, 0x65),
    (0x6A, 0x6A),
    (0x6C, 0x6D),
    (0x6F, 0x74),
    (0x7D, 0x7D),
    (0x98, 0x9D),
];

// Whether an address is one of these stretches'.
fn is_among(address: u16, stretches: &[(u16, u16)]) -> bool
    ensures { result ≡ list_any (is_within address) stretches.now }
{
    stretches
        .iter()
        .any(|stretch| stretch.0 <= address && address <= stretch.1)
}

// Whether the byte at a data address is the core's: a general register, SP or SREG.
fn is_core(address: u16) -> bool
    ensures { result ≡ is_core address }
{
    (address < 0x20) | ((address >= 0x5D) & (address <= 0x5F))
}

/// Whether a byte that can be watched stands at a data address.
#[tactic(auto, unfolding(crate::specs::Addresses::is_byte))]
pub fn is_byte(address: u16) -> bool
    ensures value { result ≡ is_byte address }
    ensures within { result ≡ true → address ≤ SRAM_LAST }
{
    if address >= SRAM_START {
        return address <= SRAM_LAST;
    }
    if is_core(address) {
        return true;
    }
    is_among(address, &KEPT)
}

// What an upper-case hexadecimal digit is.
#[tactic(auto, unfolding(crate::specs::Addresses::digit_of))]
fn digit_of(c: u8) -> Option<u16>
    ensures value { result ≡ digit_of c }
    ensures within { IfSome result (λ n. n ≤ 15) }
{
    if c >= b'0' && c <= b'9' {
        return Some(u16::from(c - b'0'));
    }
    if c >= b'A' && c <= b'F' {
        return Some(u16::from(c - b'A') + 10);
    }
    None
}

/// The address that a word of four upper-case hexadecimal digits is.
#[tactic(auto, unfolding(crate::specs::Addresses::address_of))]
pub fn address_of(word: &[u8]) -> Option<u16>
    ensures { result ≡ address_of word.now }
{
    match word {
        [a, b, c, d] => {
            let a = digit_of(*a)?;
            let b = digit_of(*b)?;
            let c = digit_of(*c)?;
            let d = digit_of(*d)?;
            Some(((a * 16 + b) * 16 + c) * 16 + d)
        }
        _ => None,
    }
}
