// Bits of a register.
ghost use Rattle.std.specs.Prelude.{◌≡◌, ◌≤◌};
ghost use Rattle.device_base.specs.Bits.{any_bit, bit};

/// Whether a byte has a bit of a mask set.
#[inline]
pub fn any_bit(byte: u8, mask: u8) -> bool
    ensures { result ≡ any_bit byte mask }
{
    byte & mask != 0
}

/// A bit of a register: that of the mask where its flag is set, else 0.
#[inline]
pub fn bit(flag: bool, mask: u8) -> u8
    ensures value { result ≡ bit flag mask }
    ensures most { result ≤ mask }
{
    if flag { mask } else { 0 }
}
