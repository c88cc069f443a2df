// Bytes in two's complement, as wider numbers that no product overflows.
ghost use Rattle.std.specs.Prelude.{◌≡◌};
ghost use Rattle.arith_step.specs.Whole.{signed};

/// A byte as a number in two's complement, -128 to 127.
#[inline]
pub fn signed_byte(n: u8) -> i16
    ensures { result ≡ signed 128 n }
{
    if n < 128 {
        i16::from(n)
    } else {
        i16::from(n) - 256
    }
}
