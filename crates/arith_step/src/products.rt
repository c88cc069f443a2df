// Products of two bytes.
ghost use Rattle.std.specs.Prelude.{◌≡◌, ◌*ℤ◌, pos, unsigned_abs};
ghost use Rattle.std.specs.Int.{int_rem_euclid};
ghost use Rattle.arith_step.specs.Words.{first_factor, is_fractional, multiplied, product, second_factor};

use crate::signed::signed_byte;
use avr_base::Sreg;

/// A multiply instruction (AVR Instruction Set Manual): which of its factors are in two's complement, and whether its
/// product is shifted left by one, as that of fractions with 7 bits behind the point.
#[derive(Clone, Copy)]
pub enum MulKind {
    /// Unsigned by unsigned.
    Mul,
    /// Signed by signed.
    Muls,
    /// Signed by unsigned.
    Mulsu,
    /// Unsigned by unsigned, shifted.
    Fmul,
    /// Signed by signed, shifted.
    Fmuls,
    /// Signed by unsigned, shifted.
    Fmulsu,
}

#[inline]
fn first(kind: MulKind, a: u8) -> i16
    ensures { result ≡ first_factor kind a }
{
    match kind {
        MulKind::Mul | MulKind::Fmul => i16::from(a),
        MulKind::Muls | MulKind::Mulsu | MulKind::Fmuls | MulKind::Fmulsu => signed_byte(a),
    }
}

#[inline]
fn second(kind: MulKind, b: u8) -> i16
    ensures { result ≡ second_factor kind b }
{
    match kind {
        MulKind::Muls | MulKind::Fmuls => signed_byte(b),
        MulKind::Mul | MulKind::Mulsu | MulKind::Fmul | MulKind::Fmulsu => i16::from(b),
    }
}

#[inline]
fn fractional(kind: MulKind) -> bool
    ensures { result ≡ is_fractional kind }
{
    match kind {
        MulKind::Mul | MulKind::Muls | MulKind::Mulsu => false,
        MulKind::Fmul | MulKind::Fmuls | MulKind::Fmulsu => true,
    }
}

#[inline]
fn exact(kind: MulKind, a: u8, b: u8) -> i32
    ensures { result ≡ first_factor kind a *ℤ second_factor kind b }
{
    i32::from(first(kind, a)) * i32::from(second(kind, b))
}

#[inline]
fn low_word(z: i32) -> u16
    ensures { result ≡ unsigned_abs (int_rem_euclid z (pos 65536)) }
{
    z.rem_euclid(65536) as u16
}

#[inline]
#[tactic(auto, unfolding(crate::specs::Words::product))]
fn product_of(kind: MulKind, a: u8, b: u8) -> u16
    ensures { result ≡ product kind a b }
{
    low_word(exact(kind, a, b))
}

/// MUL, MULS, MULSU, FMUL, FMULS and FMULSU: the product of `a` and `b` modulo 65,536, for the fractional kinds then
/// shifted left by one. C is bit 15 of the product before the shift, Z says that the result is 0; the rest of `s`
/// stays.
#[inline]
#[tactic(auto, unfolding(crate::specs::Words::multiplied))]
pub fn mul(kind: MulKind, a: u8, b: u8, s: Sreg) -> (u16, Sreg)
    ensures { result ≡ multiplied kind a b s }
{
    let p = product_of(kind, a, b);
    let r = if fractional(kind) {
        p.wrapping_mul(2)
    } else {
        p
    };
    (r, s.with(Sreg::C, p >= 32768).with(Sreg::Z, r == 0))
}
