// The bits of a byte.
ghost use Rattle.std.specs.Prelude.{◌≡◌, ◌≤◌};
ghost use Rattle.avr_base.specs.Flags.{has_bit, with_bit};

/// A byte by its bits, bit 0 the lowest.
#[derive(Clone, Copy)]
pub struct ByteBits {
    /// The byte.
    pub byte: u8,
}

impl ByteBits {
    /// Whether bit `i` (0 to 7) is set.
    #[inline]
    pub fn has(self, i: u8) -> bool
        requires { i ≤ 7 }
        ensures { result ≡ has_bit self.byte i }
    {
        (self.byte >> i) % 2 == 1
    }

    /// The byte with bit `i` (0 to 7) set where `on`, else cleared. The other bits stay.
    #[inline]
    pub fn with(self, i: u8, on: bool) -> u8
        requires { i ≤ 7 }
        ensures { result ≡ with_bit self.byte i on }
    {
        let bit = 1u8 << i;
        if on {
            self.byte | bit
        } else {
            self.byte & !bit
        }
    }
}
