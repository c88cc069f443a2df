// Cases of one rule for a result and the flags.
use arith_step::{MulKind, add, adiw, asr, com, dec, inc, logic, lsr, mul, neg, ror, sbiw, sub};
use avr_base::Sreg;

/// The result and the flags of a rule on one byte, by its name. Of `logic`, which has no result, the result is 0.
pub fn on_byte(rule: &str, a: u8, s: Sreg) -> Option<(u16, Sreg)> {
    let (r, t) = match rule {
        "logic" => (0, logic(a, s)),
        "com" => com(a, s),
        "neg" => neg(a, s),
        "inc" => inc(a, s),
        "dec" => dec(a, s),
        "lsr" => lsr(a, s),
        "ror" => ror(a, s),
        "asr" => asr(a, s),
        _ => return None,
    };
    Some((u16::from(r), t))
}

/// The kind of product that has this name.
pub fn product(name: &str) -> Option<MulKind> {
    match name {
        "mul" => Some(MulKind::Mul),
        "muls" => Some(MulKind::Muls),
        "mulsu" => Some(MulKind::Mulsu),
        "fmul" => Some(MulKind::Fmul),
        "fmuls" => Some(MulKind::Fmuls),
        "fmulsu" => Some(MulKind::Fmulsu),
        _ => None,
    }
}

// A product, or a word and a constant.
fn on_two(rule: &str, a: u16, b: u8, s: Sreg) -> Option<(u16, Sreg)> {
    match rule {
        "adiw" => Some(adiw(a, b, s)),
        "sbiw" => Some(sbiw(a, b, s)),
        _ => Some(mul(product(rule)?, u8::try_from(a).ok()?, b, s)),
    }
}

fn byte(n: u16) -> Option<u8> {
    u8::try_from(n).ok()
}

/// The result and the flags of a rule by its name: of a byte; of two bytes, or a word and a constant; of `add` with the
/// carry behind its bytes, of `sub` with the borrow and whether Z is kept.
pub fn ruled(rule: &str, s: Sreg, operands: &[u16]) -> Option<(u16, Sreg)> {
    match operands {
        [a] => on_byte(rule, byte(*a)?, s),
        [a, b] => on_two(rule, *a, byte(*b)?, s),
        [a, b, carry] if rule == "add" => {
            let (r, t) = add(byte(*a)?, byte(*b)?, *carry == 1, s);
            Some((u16::from(r), t))
        }
        [a, b, borrow, keep_z] if rule == "sub" => {
            let (r, t) = sub(byte(*a)?, byte(*b)?, *borrow == 1, *keep_z == 1, s);
            Some((u16::from(r), t))
        }
        _ => None,
    }
}
