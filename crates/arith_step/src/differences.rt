// Differences and complements of bytes.
ghost use Rattle.std.specs.Prelude.{◌≡◌, ◌<◌, ◌+◌, ◌-◌, ◌%◌, ◌==◌, ◌&&◌, false, nat_le, if◌then◌else◌};
ghost use Rattle.avr_base.specs.Flags.{Z, has_flag};
ghost use Rattle.arith_step.specs.Whole.{one_if, signs_of};
ghost use Rattle.arith_step.specs.Bytes.{complemented, decremented, negated, subtracted};

use crate::flags::{T_AND_I, borrows_at, signs_without_overflow, with_result};
use avr_base::Sreg;

// The flag Z.
const ZERO: u8 = 0x02;

// `a - b - borrow`, and 256 so that it is never below 0.
#[inline]
fn difference(a: u8, b: u8, borrow: bool) -> u32
    ensures { result ≡ a + 256 - (b + one_if borrow) }
{
    u32::from(a) + 256 - u32::from(b) - u32::from(borrow)
}

// N, Z and S of the low byte of a difference, which has nine bits, where V is 0; with Z kept, it stays set only where it
// was set.
#[inline]
fn difference_signs(whole: u32, keep_z: bool, s: Sreg) -> u8
    requires { whole < 512 }
    ensures { result ≡ signs_of (nat_le 128 (whole % 256)) (if keep_z then has_flag s.bits Z && whole % 256 == 0 else whole % 256 == 0) false }
{
    let signs = signs_without_overflow(whole);
    if keep_z {
        signs & (s.bits | !ZERO)
    } else {
        signs
    }
}

/// SUB, SBC, CP, CPC and their kin: `a - b - borrow` modulo 256, and the flags C, Z, N, V, S and H of that difference
/// in `s`; T and I stay. With `keep_z`, as in SBC and CPC, Z is set only where it was set in `s` and the result is 0.
#[inline]
#[tactic(auto, unfolding(crate::specs::Bytes::subtracted))]
pub fn sub(a: u8, b: u8, borrow: bool, keep_z: bool, s: Sreg) -> (u8, Sreg)
    ensures { result ≡ subtracted a b borrow keep_z s }
{
    let difference = difference(a, b, borrow);
    let r = (difference % 256) as u8;
    let flags = difference_signs(difference, keep_z, s) ^ borrows_at(a, b, difference);
    let bits = (s.bits & T_AND_I) | flags;
    (r, Sreg { bits })
}

/// COM: `255 - a`, C set, V cleared, and N, Z and S of the result; H, T and I stay.
#[inline]
#[tactic(auto, unfolding(crate::specs::Bytes::complemented))]
pub fn com(a: u8, s: Sreg) -> (u8, Sreg)
    ensures { result ≡ complemented a s }
{
    let r = 255 - a;
    (r, with_result(s.with(Sreg::C, true), r, false))
}

/// NEG: `0 - a` modulo 256, with the flags of that difference; T and I stay.
#[inline]
pub fn neg(a: u8, s: Sreg) -> (u8, Sreg)
    ensures { result ≡ negated a s }
{
    sub(0, a, false, false, s)
}

/// DEC: `a - 1` modulo 256, and N, Z, V and S of that difference; C, H, T and I stay.
#[inline]
#[tactic(auto, unfolding(crate::specs::Bytes::decremented), using(crate::proofs::Signs::decrement_by_signs))]
pub fn dec(a: u8, s: Sreg) -> (u8, Sreg)
    ensures { result ≡ decremented a s }
{
    let r = a.wrapping_sub(1);
    (r, with_result(s, r, r == 127))
}
