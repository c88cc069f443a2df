// A rule at all its operands, as one number: results and flags in order are mixed into a polynomial in 65,537 modulo
// the prime 2^31 - 1.
use crate::flags::{on_byte, product};
use arith_step::{add, adiw, mul, sbiw, sub};
use avr_base::Sreg;

fn mixed(sum: u64, value: u16, s: Sreg) -> u64 {
    let pair = u64::from(value) * 256 + u64::from(s.bits);
    sum.wrapping_mul(65_537).wrapping_add(pair) % 2_147_483_647
}

// The SREG on which a pair of bytes is tried: over the pairs each flag is both set and clear.
fn tried(a: u8, b: u8) -> Sreg {
    Sreg {
        bits: (a / 2).wrapping_add(b.wrapping_mul(3)),
    }
}

// A rule on one byte at each byte and each SREG.
fn bytes(rule: &str) -> Option<u64> {
    let mut sum = 0;
    for a in 0..=255u8 {
        for bits in 0..=255u8 {
            let (r, t) = on_byte(rule, a, Sreg { bits })?;
            sum = mixed(sum, r, t);
        }
    }
    Some(sum)
}

// At each pair of bytes, without and with the carry.
fn sums() -> u64 {
    let mut sum = 0;
    for a in 0..=255u8 {
        for b in 0..=255u8 {
            for carry in [false, true] {
                let (r, t) = add(a, b, carry, tried(a, b));
                sum = mixed(sum, u16::from(r), t);
            }
        }
    }
    sum
}

// At each pair of bytes, without and with the borrow, and each with Z set anew and kept.
fn differences() -> u64 {
    let mut sum = 0;
    for a in 0..=255u8 {
        for b in 0..=255u8 {
            for borrow in [false, true] {
                for keep_z in [false, true] {
                    let (r, t) = sub(a, b, borrow, keep_z, tried(a, b));
                    sum = mixed(sum, u16::from(r), t);
                }
            }
        }
    }
    sum
}

// At each pair of bytes the six products.
fn products() -> Option<u64> {
    let mut sum = 0;
    for a in 0..=255u8 {
        for b in 0..=255u8 {
            for name in ["mul", "muls", "mulsu", "fmul", "fmuls", "fmulsu"] {
                let (r, t) = mul(product(name)?, a, b, tried(a, b));
                sum = mixed(sum, r, t);
            }
        }
    }
    Some(sum)
}

// At each word with a few constants.
fn words(adds: bool) -> u64 {
    let mut sum = 0;
    for k in [0u8, 1, 2, 63] {
        for a in 0..=65535u16 {
            let s = Sreg {
                bits: (a % 256) as u8,
            };
            let (r, t) = if adds { adiw(a, k, s) } else { sbiw(a, k, s) };
            sum = mixed(sum, r, t);
        }
    }
    sum
}

/// The number of a rule by its name; `mul` is all products.
pub fn swept(rule: &str) -> Option<u64> {
    match rule {
        "add" => Some(sums()),
        "sub" => Some(differences()),
        "mul" => products(),
        "adiw" => Some(words(true)),
        "sbiw" => Some(words(false)),
        _ => bytes(rule),
    }
}
