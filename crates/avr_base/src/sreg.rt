// The flags byte.
ghost use Rattle.std.specs.Prelude.{◌≡◌, ◌≤◌};
ghost use Rattle.avr_base.specs.Flags.{has_flag, with_flag};

use crate::ByteBits;

/// The status register SREG: bits 0 to 7 are C, Z, N, V, S, H, T and I (AVR Instruction Set Manual, "Status Register").
#[derive(Clone, Copy, PartialEq, Eq)]
pub struct Sreg {
    /// The eight flags, flag i at bit i.
    pub bits: u8,
}

impl Sreg {
    /// The number of C, the carry flag.
    pub const C: u8 = 0;

    /// The number of Z, the zero flag.
    pub const Z: u8 = 1;

    /// The number of N, the negative flag.
    pub const N: u8 = 2;

    /// The number of V, the two's complement overflow flag.
    pub const V: u8 = 3;

    /// The number of S, the sign flag.
    pub const S: u8 = 4;

    /// The number of H, the half carry flag.
    pub const H: u8 = 5;

    /// The number of T, the bit copy storage.
    pub const T: u8 = 6;

    /// The number of I, the global interrupt enable.
    pub const I: u8 = 7;

    /// Whether flag `i` (0 to 7) is set.
    #[inline]
    pub fn has(self, i: u8) -> bool
        requires { i ≤ 7 }
        ensures { result ≡ has_flag self.bits i }
    {
        ByteBits { byte: self.bits }.has(i)
    }

    /// The byte with flag `i` (0 to 7) set where `on`, else cleared. The other flags stay.
    #[inline]
    pub fn with(self, i: u8, on: bool) -> Sreg
        requires { i ≤ 7 }
        ensures { result.bits ≡ with_flag self.bits i on }
    {
        let byte = ByteBits { byte: self.bits };
        Sreg {
            bits: byte.with(i, on),
        }
    }
}
