// The words of a case file.
use crate::Fault;
use std::alloc::Global;

/// A word of the file, and the numbers that stand behind it.
#[derive(Drop)]
pub struct Section<'l> {
    /// The word: it sets, does or asks something, or is an answer.
    pub word: &'l str,
    /// The numbers.
    pub numbers: Vec<u64>,
}

/// A number that is to be one of a byte.
pub fn byte_of(n: u64) -> Result<u8, Fault> {
    u8::try_from(n).map_err(|_| Fault::Unreadable)
}

// The number that a word is: decimal, or hexadecimal behind `0x`.
fn number(word: &str) -> Option<u64> {
    match word.strip_prefix("0x") {
        Some(digits) => u64::from_str_radix(digits, 16).ok(),
        None => word.parse::<u64>().ok(),
    }
}

// Whether a character stands between two words.
fn is_gap(c: char) -> bool {
    !c.is_ascii_alphanumeric() && c != '_'
}

// Puts a word behind the sections before it.
fn add<'l>(alloc: Global, sections: &mut Vec<Section<'l>>, word: &'l str) -> Result<(), Fault> {
    let Some(n) = number(word) else {
        sections.push(Section {
            word,
            numbers: Vec::new(alloc),
        })?;
        return Ok(());
    };
    match sections.last_mut() {
        Some(section) => {
            section.numbers.push(n)?;
            Ok(())
        }
        None => Err(Fault::Unreadable),
    }
}

/// The words of a line with their numbers. What stands behind `#` says nothing, and all but letters, digits and `_`
/// stands between two words.
pub fn sections_of<'l>(alloc: Global, line: &'l str) -> Result<Vec<Section<'l>>, Fault> {
    let mut sections = Vec::new(alloc);
    let text = match line.split_once('#') {
        Some((text, _)) => text,
        None => line,
    };
    for word in text.split(|c: char| is_gap(c)) {
        if !word.is_empty() {
            add(alloc, &mut sections, word)?;
        }
    }
    Ok(sections)
}
