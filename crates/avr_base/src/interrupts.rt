// The interrupt lines and the one that is served.
ghost use Rattle.std.specs.Prelude.{◌≡◌, ℕ, ◌≤◌, ◌↔◌, None};
ghost use Rattle.std.specs.Int.{bit_at};
ghost use Rattle.avr_base.specs.Lines.{pending_of};

/// The interrupt lines: bit n, 1 to 34, is set where the source of the vector at word address 2n has its flag and its
/// enable bit set (ATmega128 datasheet, "Interrupt Vectors in ATmega128"). The other bits are not looked at.
#[derive(Clone, Copy)]
pub struct Lines {
    /// The lines, line n at bit n.
    pub bits: u64,
}

/// An interrupt vector.
#[derive(Clone, Copy)]
pub struct Vector {
    /// Its word address in the flash, 2 to 68.
    pub word: u16,
}

/// The vector of the lowest line from 1 to 34 that is set: the lower the address, the higher the priority. `None`
/// exactly where none is set.
pub fn pending(lines: Lines) -> Option<Vector>
    ensures value { result ≡ pending_of lines }
    ensures none { (result ≡ None) ↔ ((n : ℕ) → 1 ≤ n → n ≤ 34 → bit_at lines.bits n ≡ 0) }
{
    let first = (lines.bits >> 1).trailing_zeros();
    if first < 34 {
        Some(Vector {
            word: 2 * (first as u16 + 1),
        })
    } else {
        None
    }
}
