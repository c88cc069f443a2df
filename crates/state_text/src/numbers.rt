// Numbers and bytes as they are written.
ghost use Rattle.std.specs.Prelude.{◌≡◌, ◌+◌, ◌-◌, ◌*◌, ◌==◌, ◌&&◌, ◌^◌, ◌≤◌, true, length, map, is_some, IfSome, IfNone};
ghost use Rattle.std.specs.List.{list_all, list_any};
ghost use Rattle.state_text.specs.Parts.{is_decimal, is_digit, is_lower, value};
ghost use Rattle.state_text.specs.Reading.{Gives, bytes_in, fits_word, numbers_in, only_bytes};

use crate::fault::StateFault;
use crate::parts::Parts;
use std::alloc::Global;

fn is_digit(b: u8) -> bool
    ensures { result ≡ is_digit b }
{
    b >= b'0' && b <= b'9'
}

fn are_digits(text: &[u8]) -> bool
    ensures { result ≡ list_all is_digit text.now }
{
    text.iter().all(|b| is_digit(*b))
}

/// Whether a part is a decimal number without leading zeros.
#[tactic(auto, unfolding(crate::specs::Parts::is_decimal))]
pub fn is_decimal(part: &[u8]) -> bool
    ensures { result ≡ is_decimal part.now }
{
    match part {
        [] => false,
        [b'0', rest @ ..] => rest.is_empty(),
        _ => are_digits(part),
    }
}

// A number with one more digit, where it has at most 64 bits.
fn with_digit(n: u64, digit: u8) -> Option<u64>
    requires { is_digit digit ≡ true }
    ensures some { IfSome result (λ m. m ≡ n * 10 + (digit - 48)) }
    ensures none { IfNone result (2 ^ 64 ≤ n * 10 + (digit - 48)) }
{
    match n.checked_mul(10) {
        None => None,
        Some(tens) => tens.checked_add(u64::from(digit - b'0')),
    }
}

/// The number of decimal digits, where it has at most 64 bits.
pub fn value(digits: &[u8]) -> Option<u64>
    requires { is_decimal digits.now ≡ true }
    ensures some { IfSome result (λ n. n ≡ value digits.now) }
    ensures none { IfNone result (2 ^ 64 ≤ value digits.now) }
{
    let mut value = 0u64;
    for digit in digits {
        match with_digit(value, *digit) {
            None => return None,
            Some(more) => value = more,
        }
    }
    Some(value)
}

// Whether so many parts are left, each a decimal number.
fn are_decimals(mut parts: Parts<'_>, count: usize) -> bool
    ensures { result ≡ (length parts.entry == count && list_all is_decimal parts.entry) }
{
    for _ in 0..count {
        match parts.next() {
            None => return false,
            Some(part) => {
                if !is_decimal(part) {
                    return false;
                }
            }
        }
    }
    match parts.next() {
        None => true,
        Some(_) => false,
    }
}

// The numbers of so many parts, where each has at most 64 bits.
fn values<const N: usize>(mut parts: Parts<'_>) -> Option<[u64; N]>
    requires decimals { list_all is_decimal parts ≡ true }
    requires many { length parts ≡ N }
    ensures fit { is_some result ≡ list_all fits_word parts.entry }
    ensures values { IfSome result (λ numbers. numbers ≡ map value parts.entry) }
{
    let mut numbers = [0; N];
    for place in 0..N {
        match value(parts.next()?) {
            None => return None,
            Some(n) => numbers[place] = n,
        }
    }
    Some(numbers)
}

/// The `N` numbers of the parts that are left, one in each. `NotAState`, with the line number `number`, where they are
/// more or fewer, or one is no decimal number; out of bounds where one has more than 64 bits.
#[tactic(auto, unfolding(crate::specs::Reading::numbers_in))]
pub fn numbers_in<const N: usize>(number: usize, parts: Parts<'_>) -> Result<[u64; N], StateFault>
    ensures { Gives (λ numbers. numbers) result (numbers_in number N parts.entry) }
{
    if !are_decimals(parts.again(), N) {
        return Err(StateFault::NotAState { line: number });
    }
    match values(parts) {
        Some(numbers) => Ok(numbers),
        None => Err(StateFault::out_of_bounds(number)),
    }
}

fn is_lower(b: u8) -> bool
    ensures { result ≡ is_lower b }
{
    b >= b'a' && b <= b'z'
}

fn has_lower(text: &[u8]) -> bool
    ensures { result ≡ list_any is_lower text.now }
{
    text.iter().any(|b| is_lower(*b))
}

/// The `count` bytes that a part spells, two upper case hexadecimal digits each. `NotAState`, with the line number
/// `number`, where it spells another count or has anything else.
#[tactic(auto, unfolding(crate::specs::Reading::bytes_in))]
pub fn bytes_in(
    alloc: Global,
    number: usize,
    count: usize,
    part: &[u8],
) -> Result<Vec<u8>, StateFault>
    ensures { Gives (λ bytes. bytes.items) result (bytes_in number count part.now) }
{
    if has_lower(part) {
        return Err(StateFault::NotAState { line: number });
    }
    let mut bytes = Vec::new(alloc);
    bytes.resize(count, 0)?;
    match hex::decode_to_slice(part, &mut bytes) {
        Ok(()) => Ok(bytes),
        Err(_) => Err(StateFault::NotAState { line: number }),
    }
}

/// The `count` bytes that the only part left spells, as `bytes_in` reads it. `NotAState` also where there is no part
/// left, or more than one.
#[tactic(auto, unfolding(crate::specs::Reading::only_bytes))]
pub fn only_bytes(
    alloc: Global,
    number: usize,
    count: usize,
    mut parts: Parts<'_>,
) -> Result<Vec<u8>, StateFault>
    ensures { Gives (λ bytes. bytes.items) result (only_bytes number count parts.entry) }
{
    let Some(part) = parts.next() else {
        return Err(StateFault::NotAState { line: number });
    };
    match parts.next() {
        None => bytes_in(alloc, number, count, part),
        Some(_) => Err(StateFault::NotAState { line: number }),
    }
}
