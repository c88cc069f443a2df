// The number of a general register.
ghost use Rattle.std.specs.Prelude.{◌≡◌, ◌≤◌, ℕ, IfSome, IsSome, ◌↔◌};

use std::marker::Model;

/// One of the 32 general registers r0 to r31 (AVR Instruction Set Manual, "General Purpose Registers").
/// A contract sees it as its number.
#[derive(Clone, Copy, PartialEq, Eq)]
pub struct Reg {
    n: u8,
}

impl Model for Reg {
    ghost Value = { ℕ };

    ghost view = { λ r. r.n };

    ghost invariant = { λ r. r.n ≤ 31 };

    ghost inverse = { λ n. record { n = n } };
}

impl Reg {
    /// The register of number `n`. `None` exactly where `n` is above 31.
    #[inline]
    pub fn new(n: u8) -> Option<Self>
        ensures some { IfSome result (λ r. r ≡ n) }
        ensures which { IsSome result ↔ (n ≤ 31) }
    {
        if n > 31 {
            return None;
        }
        Some(Reg { n })
    }

    /// The register of a number that is at most 31, as a decoder spells it from an opcode word.
    #[inline]
    pub fn numbered(n: u8) -> Self
        requires { n ≤ 31 }
        ensures { result ≡ n }
    {
        Reg { n }
    }

    /// Its number, 0 to 31.
    #[inline]
    pub fn get(self) -> u8
        ensures value { result ≡ self }
        ensures small { result ≤ 31 }
    {
        self.n
    }
}
