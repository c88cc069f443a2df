// Numbers and registers as they are written.
ghost use Rattle.std.specs.Prelude.{◌≡◌, ◌≤◌, true, IfSome};
ghost use Rattle.asm_words.specs.Number.{digit, is_digit, digits_from, digits_of, number, register, decimal_of, hexadecimal_of};

fn is_digit(base: u32, b: u8) -> bool
    requires { base ≤ 16 }
    ensures { result ≡ is_digit base b }
{
    let is_letter = (b >= b'A' && b <= b'F') || (b >= b'a' && b <= b'f');
    (b >= b'0' && b <= b'9') || (base == 16 && is_letter)
}

fn digit(b: u8) -> u32
    ensures value { result ≡ digit b }
    ensures small { result ≤ 255 }
{
    if b < b':' {
        u32::from(b.saturating_sub(b'0'))
    } else if b < b'G' {
        u32::from(b - 55)
    } else {
        u32::from(b.saturating_sub(87))
    }
}

// The number that digits write, 65,536 where it is larger.
#[tactic(auto, unfolding(crate::specs::Number::digits_of))]
fn digits(base: u32, text: &[u8]) -> Option<u32>
    requires { base ≤ 16 }
    ensures value { result ≡ digits_of base text.now }
    ensures small { IfSome result (λ n. n ≤ 65536) }
{
    let mut value = 0u32;
    for b in text {
        if !is_digit(base, *b) {
            return None;
        }
        value = (base * value + digit(*b)).min(65_536);
    }
    Some(value)
}

fn hexadecimal(text: &[u8]) -> Option<u32>
    ensures value { result ≡ hexadecimal_of text.now }
    ensures small { IfSome result (λ n. n ≤ 65536) }
{
    if text.is_empty() || text.len() > 4 {
        return None;
    }
    digits(16, text)
}

fn decimal(text: &[u8]) -> Option<u32>
    ensures value { result ≡ decimal_of text.now }
    ensures small { IfSome result (λ n. n ≤ 65536) }
{
    if text.is_empty() {
        return None;
    }
    digits(10, text)
}

/// A number: decimal digits, or `0x` and one to four hexadecimal digits of either case. 65,536 stands for any number
/// that is larger: no operand is so large.
#[tactic(auto, unfolding(crate::specs::Number::number))]
pub fn number(text: &[u8]) -> Option<u32>
    ensures value { result ≡ number text.now }
    ensures small { IfSome result (λ n. n ≤ 65536) }
{
    match text {
        [b'0', b'x', rest @ ..] => hexadecimal(rest),
        _ => decimal(text),
    }
}

/// A register, `r0` to `r31`.
#[tactic(auto, unfolding(crate::specs::Number::register))]
pub fn register(text: &[u8]) -> Option<u16>
    ensures value { result ≡ register text.now }
    ensures small { IfSome result (λ n. n ≤ 31) }
{
    match *text {
        [b'r', a] if is_digit(10, a) => Some(digit(a) as u16),
        [b'r', a, b] if is_digit(10, a) && is_digit(10, b) => {
            let n = 10 * digit(a) + digit(b);
            if n < 10 || n > 31 {
                return None;
            }
            Some(n as u16)
        }
        _ => None,
    }
}
