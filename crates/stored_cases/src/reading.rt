// The files of cases, their lines, and the words and numbers in these.
use crate::failed::Failed;
use std::alloc::{AllocError, Global};
use std::fs::{self, Files};

/// The text of the real file of this name, which lies where the program runs.
pub fn text_of<R: Files + AllocGlobal>(rt: &R, name: &str) -> Result<String, Failed> {
    match fs::read_to_string(rt, name) {
        Ok(text) => Ok(text),
        Err(_) => Err(Failed),
    }
}

/// The bytes of the real file of this name, which lies where the program runs.
pub fn bytes_of<R: Files + AllocGlobal>(rt: &R, name: &str) -> Result<Vec<u8>, Failed> {
    match fs::read(rt, name) {
        Ok(bytes) => Ok(bytes),
        Err(_) => Err(Failed),
    }
}

/// Whether a line says something: it is neither empty nor a comment, which begins with `#`.
pub fn is_told(line: &str) -> bool {
    !line.is_empty() && !line.starts_with('#')
}

/// The words of a text, between which white space stands.
pub fn words_of(alloc: Global, text: &str) -> Result<Vec<&str>, AllocError> {
    let mut all = Vec::new(alloc);
    for word in text.split_whitespace() {
        all.push(word)?;
    }
    Ok(all)
}

/// The decimal numbers of a text, each below 2^64, between which white space stands; `None` where a word is no such
/// number.
pub fn numbers_of(alloc: Global, text: &str) -> Result<Option<Vec<u64>>, AllocError> {
    let mut all = Vec::new(alloc);
    for word in text.split_whitespace() {
        match word.parse::<u64>() {
            Ok(n) => all.push(n)?,
            Err(_) => return Ok(None),
        }
    }
    Ok(Some(all))
}

/// The number that a hexadecimal digit stands for: `0` to `9`, or `A` to `F`.
pub fn hex_digit(c: u8) -> Option<u8> {
    match c {
        b'0'..=b'9' => Some(c - b'0'),
        b'A'..=b'F' => Some(c - b'A' + 10),
        _ => None,
    }
}

/// The byte of two hexadecimal digits, the upper one first.
pub fn hex_pair(digits: &[u8]) -> Option<u8> {
    let [high, low] = digits else {
        return None;
    };
    Some(
        hex_digit(*high)?
            .wrapping_mul(16)
            .wrapping_add(hex_digit(*low)?),
    )
}
