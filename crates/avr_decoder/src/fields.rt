// The fields of an opcode word: the numbers that the letters of a pattern spell. Each is named by where it stands, and
// its clause cites one of the patterns that have it there.
ghost use Rattle.std.specs.Prelude.{◌≡◌, ◌+◌, ◌*◌, codes};
ghost use Rattle.avr_decoder.specs.Opcodes.{spelled, signed, d, r, K, A, b, s, q, k};

use avr_base::Reg;

/// Bits 8 to 4: the register `d`, or the `r` of a store.
#[inline]
#[tactic(auto, unfolding(crate::specs::Opcodes::bits_at))]
pub fn reg_8_4(word: u16) -> Reg
    ensures { result ≡ spelled d (codes "000011rdddddrrrr") word }
{
    Reg::numbered((word / 16 % 32) as u8)
}

/// Bit 9 and the low four: the `r` of two registers.
#[inline]
#[tactic(auto, unfolding(crate::specs::Opcodes::bits_at))]
pub fn reg_9_3_0(word: u16) -> Reg
    ensures { result ≡ spelled r (codes "000011rdddddrrrr") word }
{
    Reg::numbered((word / 512 % 2 * 16 + word % 16) as u8)
}

/// Bits 7 to 4 and 16: a `d` of four bits.
#[inline]
#[tactic(auto, unfolding(crate::specs::Opcodes::bits_at))]
pub fn upper_d(word: u16) -> Reg
    ensures { result ≡ 16 + spelled d (codes "0011KKKKddddKKKK") word }
{
    Reg::numbered((16 + word / 16 % 16) as u8)
}

/// The low four bits and 16: an `r` of four bits.
#[inline]
#[tactic(auto, unfolding(crate::specs::Opcodes::bits_at))]
pub fn upper_r(word: u16) -> Reg
    ensures { result ≡ 16 + spelled r (codes "00000010ddddrrrr") word }
{
    Reg::numbered((16 + word % 16) as u8)
}

/// Bits 7 to 4 twice: the lower register of MOVW's pair `d`.
#[inline]
#[tactic(auto, unfolding(crate::specs::Opcodes::bits_at))]
pub fn pair_d(word: u16) -> Reg
    ensures { result ≡ 2 * spelled d (codes "00000001ddddrrrr") word }
{
    Reg::numbered((2 * (word / 16 % 16)) as u8)
}

/// The low four bits twice: the lower register of MOVW's pair `r`.
#[inline]
#[tactic(auto, unfolding(crate::specs::Opcodes::bits_at))]
pub fn pair_r(word: u16) -> Reg
    ensures { result ≡ 2 * spelled r (codes "00000001ddddrrrr") word }
{
    Reg::numbered((2 * (word % 16)) as u8)
}

/// Bits 6 to 4 and 16: a `d` of three bits.
#[inline]
#[tactic(auto, unfolding(crate::specs::Opcodes::bits_at))]
pub fn short_d(word: u16) -> Reg
    ensures { result ≡ 16 + spelled d (codes "000000110ddd0rrr") word }
{
    Reg::numbered((16 + word / 16 % 8) as u8)
}

/// The low three bits and 16: an `r` of three bits.
#[inline]
#[tactic(auto, unfolding(crate::specs::Opcodes::bits_at))]
pub fn short_r(word: u16) -> Reg
    ensures { result ≡ 16 + spelled r (codes "000000110ddd0rrr") word }
{
    Reg::numbered((16 + word % 8) as u8)
}

/// Bits 5 and 4: the lower register of the pair of ADIW and SBIW, r24, r26, r28 or r30.
#[inline]
#[tactic(auto, unfolding(crate::specs::Opcodes::bits_at))]
pub fn word_pair(word: u16) -> Reg
    ensures { result ≡ 24 + 2 * spelled d (codes "10010110KKddKKKK") word }
{
    Reg::numbered((24 + 2 * (word / 16 % 4)) as u8)
}

/// Bits 11 to 8 and the low four: a constant of eight bits.
#[inline]
#[tactic(auto, unfolding(crate::specs::Opcodes::bits_at))]
pub fn constant(word: u16) -> u8
    ensures { result ≡ spelled K (codes "0011KKKKddddKKKK") word }
{
    (word / 256 % 16 * 16 + word % 16) as u8
}

/// Bits 7, 6 and the low four: the constant of ADIW and SBIW.
#[inline]
#[tactic(auto, unfolding(crate::specs::Opcodes::bits_at))]
pub fn short_constant(word: u16) -> u8
    ensures { result ≡ spelled K (codes "10010110KKddKKKK") word }
{
    (word / 64 % 4 * 16 + word % 16) as u8
}

/// Bit 13, bits 11 and 10 and the low three: a displacement.
#[inline]
#[tactic(auto, unfolding(crate::specs::Opcodes::bits_at))]
pub fn displacement(word: u16) -> u8
    ensures { result ≡ spelled q (codes "10q0qq0ddddd0qqq") word }
{
    (word / 8192 % 2 * 32 + word / 1024 % 4 * 8 + word % 8) as u8
}

/// Bits 7 to 3: an I/O address below 32.
#[inline]
#[tactic(auto, unfolding(crate::specs::Opcodes::bits_at))]
pub fn low_address(word: u16) -> u8
    ensures { result ≡ spelled A (codes "10011000AAAAAbbb") word }
{
    (word / 8 % 32) as u8
}

/// Bits 10, 9 and the low four: an I/O address.
#[inline]
#[tactic(auto, unfolding(crate::specs::Opcodes::bits_at))]
pub fn address(word: u16) -> u8
    ensures { result ≡ spelled A (codes "10110AAdddddAAAA") word }
{
    (word / 512 % 4 * 16 + word % 16) as u8
}

/// The low three bits: a bit number, or the flag of a branch.
#[inline]
#[tactic(auto, unfolding(crate::specs::Opcodes::bits_at))]
pub fn low_three(word: u16) -> u8
    ensures { result ≡ spelled b (codes "10011000AAAAAbbb") word }
{
    (word % 8) as u8
}

/// Bits 6 to 4: the flag of BSET and BCLR.
#[inline]
#[tactic(auto, unfolding(crate::specs::Opcodes::bits_at))]
pub fn flag(word: u16) -> u8
    ensures { result ≡ spelled s (codes "100101000sss1000") word }
{
    (word / 16 % 8) as u8
}

/// The low twelve bits, signed: the words that RJMP and RCALL go from the next word.
#[inline]
#[tactic(auto, unfolding(crate::specs::Opcodes::bits_at))]
pub fn jump_offset(word: u16) -> i16
    ensures { result ≡ signed 12 (spelled k (codes "1100kkkkkkkkkkkk") word) }
{
    let offset = word % 4096;
    if offset < 2048 {
        offset as i16
    } else {
        offset as i16 - 4096
    }
}

/// Bits 9 to 3, signed: the words that a branch goes from the next word.
#[inline]
#[tactic(auto, unfolding(crate::specs::Opcodes::bits_at))]
pub fn branch_offset(word: u16) -> i16
    ensures { result ≡ signed 7 (spelled k (codes "111100kkkkkkksss") word) }
{
    let offset = word / 8 % 128;
    if offset < 64 {
        offset as i16
    } else {
        offset as i16 - 128
    }
}
