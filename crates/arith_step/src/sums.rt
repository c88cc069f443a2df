// Sums and bitwise results of bytes.
ghost use Rattle.std.specs.Prelude.{◌≡◌, ◌+ℤ◌, pos};
ghost use Rattle.arith_step.specs.Whole.{one_if, signed};
ghost use Rattle.arith_step.specs.Bytes.{added, incremented, logical};

use crate::flags::{T_AND_I, carries_at, signs_without_overflow, with_result};
use avr_base::Sreg;

/// ADD and ADC: `a + b + carry` modulo 256, and the flags C, Z, N, V, S and H of that sum in `s`; T and I stay.
#[inline]
#[tactic(auto, unfolding(crate::specs::Bytes::added))]
pub fn add(a: u8, b: u8, carry: bool, s: Sreg) -> (u8, Sreg)
    ensures { result ≡ added a b carry s }
{
    let sum = u32::from(a) + u32::from(b) + u32::from(carry);
    let r = (sum % 256) as u8;
    let flags = signs_without_overflow(sum) ^ carries_at(a, b, sum);
    let bits = (s.bits & T_AND_I) | flags;
    (r, Sreg { bits })
}

/// The flags of a bitwise result `r`, as of AND, OR and EOR: N, Z and S of it, V cleared; C, H, T and I stay.
#[inline]
#[tactic(auto, unfolding(crate::specs::Bytes::logical))]
pub fn logic(r: u8, s: Sreg) -> Sreg
    ensures { result ≡ logical r s }
{
    with_result(s, r, false)
}

/// INC: `a + 1` modulo 256, and N, Z, V and S of that sum; C, H, T and I stay.
#[inline]
#[tactic(auto, unfolding(crate::specs::Bytes::incremented), using(crate::proofs::Signs::increment_by_signs))]
pub fn inc(a: u8, s: Sreg) -> (u8, Sreg)
    ensures { result ≡ incremented a s }
{
    let r = a.wrapping_add(1);
    (r, with_result(s, r, r == 128))
}
