// Numbers as the cases write them.
use std::alloc::{AllocError, Global};
use stored_cases::hex_digit;

/// The number that a word of one to four hexadecimal digits is.
pub fn hex(word: &str) -> Option<u16> {
    if word.is_empty() || word.len() > 4 {
        return None;
    }
    let mut n: u16 = 0;
    for c in word.bytes() {
        n = n.wrapping_mul(16).wrapping_add(u16::from(hex_digit(c)?));
    }
    Some(n)
}

/// The number below 256 that a word of hexadecimal digits is.
pub fn hex_byte(word: &str) -> Option<u8> {
    u8::try_from(hex(word)?).ok()
}

// A word: a number, or `COUNT*NUMBER`, which is the number so many times.
fn counted(word: &str) -> Option<(u16, u16)> {
    match word.split_once('*') {
        Some((count, n)) => Some((hex(count)?, hex(n)?)),
        None => Some((1, hex(word)?)),
    }
}

/// The hexadecimal numbers in a text, `COUNT*NUMBER` as often as it says; `None` where a word is no such number.
pub fn hex_words(alloc: Global, text: &str) -> Result<Option<Vec<u16>>, AllocError> {
    let mut numbers = Vec::new(alloc);
    for word in text.split_whitespace() {
        let Some((count, n)) = counted(word) else {
            return Ok(None);
        };
        for _ in 0..count {
            numbers.push(n)?;
        }
    }
    Ok(Some(numbers))
}
