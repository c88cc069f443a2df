// Numbers in upper-case hexadecimal digits.
ghost use Rattle.std.specs.Prelude.{◌≡◌, ◌+◌, ◌<◌, ◌≤◌, ◌++◌, true};
ghost use Rattle.std.specs.Fmt.{digit_glyph};
ghost use Rattle.arrayvec.specs.ArrayString.{array_string_len};
ghost use Rattle.sim_io.specs.Digits.{hex2, hex4};

use arrayvec::ArrayString;

// The digit of a number below 16, as A to F from ten on.
#[inline]
fn hex_digit(n: u8) -> char
    requires { n < 16 }
    ensures value { result ≡ digit_glyph true n }
    ensures ascii { result < 128 }
{
    if n < 10 {
        (b'0' + n) as char
    } else {
        (b'A' - 10 + n) as char
    }
}

/// Appends a byte as two digits, as `0F`.
#[inline]
#[tactic(auto, unfolding(crate::specs::Digits::hex2))]
pub fn put_hex2<const N: usize>(n: u8, out: &mut ArrayString<N>)
    requires { array_string_len out.old + 2 ≤ N }
    ensures bytes { out.new.bytes ≡ out.old.bytes ++ hex2 n }
    ensures len { array_string_len out.new ≡ array_string_len out.old + 2 }
{
    out.push(hex_digit(n / 16));
    out.push(hex_digit(n % 16));
}

/// Appends a word as four digits, as `00FF`.
#[inline]
#[tactic(auto, unfolding(crate::specs::Digits::hex4))]
pub fn put_hex4<const N: usize>(n: u16, out: &mut ArrayString<N>)
    requires { array_string_len out.old + 4 ≤ N }
    ensures bytes { out.new.bytes ≡ out.old.bytes ++ hex4 n }
    ensures len { array_string_len out.new ≡ array_string_len out.old + 4 }
{
    put_hex2((n / 256) as u8, out);
    put_hex2((n % 256) as u8, out);
}
