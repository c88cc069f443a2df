// The bits that an operand puts into a word.
ghost use Rattle.std.specs.Prelude.{◌≡◌, ◌≤◌, Some};
ghost use Rattle.asm_words.specs.Fields.{register_bits, number_bits, pointer, flash_pointer, displaced_of, displaced, both_bits};

use crate::form::{NumberField, RegisterField};
use crate::number::number;
use crate::table::find;

static POINTERS: [(&str, u16); 9] = [
    ("X", 0x100C),
    ("X+", 0x100D),
    ("-X", 0x100E),
    ("Y", 0x0008),
    ("Y+", 0x1009),
    ("-Y", 0x100A),
    ("Z", 0x0000),
    ("Z+", 0x1001),
    ("-Z", 0x1002),
];

static FLASH_POINTERS: [(&str, u16); 2] = [("Z", 0), ("Z+", 1)];

/// The bits of register `n`, 0 to 31, where the field can have it.
#[tactic(auto, unfolding(crate::specs::Fields::register_bits))]
pub fn register_bits(field: RegisterField, n: u16) -> Option<u16>
    requires { n ≤ 31 }
    ensures { result ≡ register_bits field n }
{
    match field {
        RegisterField::Middle => Some(16 * n),
        RegisterField::Split => Some(n / 16 * 512 + n % 16),
        RegisterField::Both => Some(16 * n + (n / 16 * 512 + n % 16)),
        RegisterField::UpperMiddle if n >= 16 => Some(16 * (n - 16)),
        RegisterField::UpperLow if n >= 16 => Some(n - 16),
        RegisterField::ShortMiddle if n >= 16 && n <= 23 => Some(16 * (n - 16)),
        RegisterField::ShortLow if n >= 16 && n <= 23 => Some(n - 16),
        RegisterField::PairMiddle if n % 2 == 0 => Some(8 * n),
        RegisterField::PairLow if n % 2 == 0 => Some(n / 2),
        RegisterField::WordPair if n >= 24 && n % 2 == 0 => Some(8 * (n - 24)),
        _ => None,
    }
}

/// The bits of a number where the field can have it.
#[tactic(auto, unfolding(crate::specs::Fields::number_bits))]
pub fn number_bits(field: NumberField, n: u32) -> Option<u16>
    ensures { result ≡ number_bits field n }
{
    match field {
        NumberField::Constant if n <= 255 => Some((n / 16 * 256 + n % 16) as u16),
        NumberField::ShortConstant if n <= 63 => Some((n / 16 * 64 + n % 16) as u16),
        NumberField::Address if n <= 63 => Some((n / 16 * 512 + n % 16) as u16),
        NumberField::LowAddress if n <= 31 => Some((8 * n) as u16),
        NumberField::LowThree if n <= 7 => Some(n as u16),
        NumberField::Flag if n <= 7 => Some((16 * n) as u16),
        NumberField::Word if n <= 65_535 => Some(n as u16),
        _ => None,
    }
}

/// The bits of a pointer of LD and ST; Y and Z are Y+0 and Z+0.
pub fn pointer(text: &[u8]) -> Option<u16>
    ensures { result ≡ pointer text.now }
{
    find(&POINTERS, text)
}

/// The bits of a pointer of LPM and ELPM.
pub fn flash_pointer(text: &[u8]) -> Option<u16>
    ensures { result ≡ flash_pointer text.now }
{
    find(&FLASH_POINTERS, text)
}

// The bits of a pointer, and of a displacement where it is at most 63.
fn displaced(base: u16, q: Option<u32>) -> Option<u16>
    ensures { result ≡ both_bits (Some base) (displaced q) }
{
    match q {
        None => None,
        Some(q) => {
            if q > 63 {
                return None;
            }
            let bits = (q / 32 * 8192 + q / 8 % 4 * 1024 + q % 8) as u16;
            Some(bits.wrapping_add(base))
        }
    }
}

/// The bits of a pointer and its displacement, as `Y+5`.
#[tactic(auto, unfolding(crate::specs::Fields::displaced_of))]
pub fn displaced_by(text: &[u8]) -> Option<u16>
    ensures { result ≡ displaced_of text.now }
{
    match text {
        [b'Y', b'+', digits @ ..] => displaced(8, number(digits)),
        [b'Z', b'+', digits @ ..] => displaced(0, number(digits)),
        _ => None,
    }
}
