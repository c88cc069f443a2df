// The addresses of the internal SRAM.
ghost use Rattle.std.specs.Prelude.{◌≡◌};
ghost use Rattle.avr_core.specs.Execute.{in_sram};

/// Whether a data address is one of the internal SRAM, 0x0100 to 0x10FF.
#[inline(always)]
pub fn is_in_sram(at: u16) -> bool
    ensures { result ≡ in_sram at }
{
    at.wrapping_sub(0x0100) < 0x1000
}
