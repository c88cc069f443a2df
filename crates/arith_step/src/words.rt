// Sums and differences of a word and a constant.
ghost use Rattle.std.specs.Prelude.{◌≡◌, ◌+◌, ◌*◌, ◌-◌, ◌/◌, ◌%◌, ◌==◌, bit_and, bit_or, if◌then◌else◌};
ghost use Rattle.arith_step.specs.Words.{added_word, subtracted_word};

use crate::flags::H_T_AND_I;
use avr_base::Sreg;

/// C, N, V and S of a sum by the signs of the word and of the sum, that of the word higher.
pub static SUM_FLAGS: [u8; 4] = [0x00, 0x0C, 0x01, 0x14];

/// C, N, V and S of a difference by the signs of the word and of the difference, that of the word higher.
pub static DIFFERENCE_FLAGS: [u8; 4] = [0x00, 0x15, 0x18, 0x14];

// The signs of a word and of a result, that of the word higher.
#[inline]
fn signs(a: u16, r: u16) -> usize
    ensures { result ≡ a / 32768 * 2 + r / 32768 }
{
    usize::from(a / 32768 * 2 + r / 32768)
}

// These flags, and Z of a result that is a word; H, T and I stay.
#[inline]
fn with_word(flags: u8, r: u16, s: Sreg) -> Sreg
    ensures { result.bits ≡ bit_or (bit_and s.bits 224) (bit_or flags (if r == 0 then 2 else 0)) }
{
    let zero = if r == 0 { 2 } else { 0 };
    Sreg {
        bits: (s.bits & H_T_AND_I) | (flags | zero),
    }
}

/// ADIW: `a + k` modulo 65,536, and C, Z, N, V and S of that sum; H, T and I stay.
#[inline]
#[tactic(auto, unfolding(crate::specs::Words::added_word))]
pub fn adiw(a: u16, k: u8, s: Sreg) -> (u16, Sreg)
    ensures { result ≡ added_word a k s }
{
    let sum = u32::from(a) + u32::from(k);
    let r = (sum % 65536) as u16;
    (r, with_word(SUM_FLAGS[signs(a, r)], r, s))
}

/// SBIW: `a - k` modulo 65,536, and C, Z, N, V and S of that difference; H, T and I stay.
#[inline]
#[tactic(auto, unfolding(crate::specs::Words::subtracted_word))]
pub fn sbiw(a: u16, k: u8, s: Sreg) -> (u16, Sreg)
    ensures { result ≡ subtracted_word a k s }
{
    let r = difference(a, u16::from(k));
    (r, with_word(DIFFERENCE_FLAGS[signs(a, r)], r, s))
}

// `a - k` modulo 65,536.
#[inline]
fn difference(a: u16, k: u16) -> u16
    ensures { result ≡ (a + 65536 - k) % 65536 }
{
    a.wrapping_sub(k)
}
