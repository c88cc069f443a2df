// Numbers in decimal digits.
ghost use Rattle.std.specs.Prelude.{◌≡◌, ◌+◌, ◌≤◌, ◌++◌};
ghost use Rattle.arrayvec.specs.ArrayString.{array_string_len};
ghost use Rattle.sim_io.specs.Digits.{offset_text};

use arrayvec::ArrayString;
use itoa::{Buffer, Integer};

/// Appends a number in decimal, without leading zeros. Of a `u8`, `u16`, `u32` and `u64` the text is `decimal n`, of
/// at most 3, 5, 10 and 20 digits.
#[inline]
pub fn put_decimal<I: Integer, const N: usize>(n: I, out: &mut ArrayString<N>)
    requires { array_string_len out.old + I.MAX_STR_LEN ≤ N }
    ensures bytes { out.new.bytes ≡ out.old.bytes ++ I.text n }
    ensures len { array_string_len out.new ≤ array_string_len out.old + I.MAX_STR_LEN }
{
    let mut digits = Buffer::new();
    out.push_str(digits.format(n));
}

/// Appends a distance of `k` words from the next instruction as an assembler prints it, in bytes: `.+6` at 3, `.-2`
/// at -1, `.+0` at 0.
#[tactic(auto, unfolding(crate::specs::Digits::offset_text), using(crate::proofs::Short::five_digits))]
pub fn put_distance<const N: usize>(k: i16, out: &mut ArrayString<N>)
    requires { array_string_len out.old + 7 ≤ N }
    ensures bytes { out.new.bytes ≡ out.old.bytes ++ offset_text k }
    ensures len { array_string_len out.new ≤ array_string_len out.old + 7 }
{
    out.push_str(if k < 0 { ".-" } else { ".+" });
    // at most five digits, where a `u32` could have ten
    let mut digits = Buffer::new();
    out.push_str(digits.format(u32::from(k.unsigned_abs()) * 2));
}
