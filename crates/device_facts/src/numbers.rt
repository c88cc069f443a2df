// Numbers as the lines write them.
ghost use Rattle.std.specs.Prelude.{◌<◌, ◌^◌, IfSome};

use stored_cases::hex_pair;

/// The byte that a word of two hexadecimal digits is.
pub fn byte(word: &str) -> Option<u8> {
    hex_pair(word.as_bytes())
}

/// The address that a word of four hexadecimal digits is.
pub fn address(word: &str) -> Option<u16> {
    let (high, low) = word.split_at_checked(2)?;
    Some(
        u16::from(byte(high)?)
            .wrapping_mul(256)
            .wrapping_add(u16::from(byte(low)?)),
    )
}

/// The number below 2^16 that a word is, in decimal digits.
pub fn short(word: &str) -> Option<u16> {
    word.parse().ok()
}

/// The number below 2^32 that a word is, in decimal digits, as a cycle is.
pub fn cycle(word: &str) -> Option<u64>
    // so cycles and their sums meet what the devices ask of them
    ensures { IfSome result (λ n. n < 2 ^ 32) }
{
    let n: u32 = word.parse().ok()?;
    Some(u64::from(n))
}

/// The number below 2^64 that a word is, in decimal digits.
pub fn long(word: &str) -> Option<u64> {
    word.parse().ok()
}

/// The number below 2^64 that a word is, or that it is `none`.
pub fn perhaps(word: &str) -> Option<Option<u64>> {
    if word == "none" {
        return Some(None);
    }
    Some(Some(long(word)?))
}
