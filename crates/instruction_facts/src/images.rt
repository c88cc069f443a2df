// Cases of images in Intel HEX.
use crate::numbers::hex;
use ihex_loader::{Flash, HexFault, load};
use std::alloc::{AllocError, Global};

// The byte that a letter behind a backslash stands for.
fn escaped(letter: u8) -> Option<u8> {
    match letter {
        b'n' => Some(b'\n'),
        b'r' => Some(b'\r'),
        b't' => Some(b'\t'),
        _ => None,
    }
}

/// Puts a text behind `out`, with LF, CR and a tab for `\n`, `\r` and `\t`; `None` where another letter is behind a
/// backslash.
pub fn put_unescaped(text: &str, out: &mut Vec<u8>) -> Result<Option<()>, AllocError> {
    let mut behind = false;
    for c in text.bytes() {
        if behind {
            let Some(byte) = escaped(c) else {
                return Ok(None);
            };
            out.push(byte)?;
            behind = false;
        } else if c == b'\\' {
            behind = true;
        } else {
            out.push(c)?;
        }
    }
    Ok(Some(()))
}

// Whether each `ADDRESS=WORD` in a text is a word of the flash; `None` where one is none of the form.
fn has_words(flash: &Flash, settings: &str) -> Option<bool> {
    let mut right = true;
    for setting in settings.split_whitespace() {
        let (pc, word) = setting.split_once('=')?;
        right = right && flash.word(hex(pc)?) == hex(word)?;
    }
    Some(right)
}

// `accepted USED ADDRESS=WORD ..`, of the flash and of its copy.
fn is_accepted(flash: &Flash, copy: &Flash, gives: &str) -> Option<bool> {
    let (accepted, rest) = gives.split_once(' ')?;
    let (used, settings) = rest.split_once(' ').unwrap_or((rest, ""));
    let used = used.parse::<u32>().ok()?;
    let right = accepted == "accepted" && flash.used() == used && copy.is(flash);
    Some(right && has_words(copy, settings)?)
}

// `NAME LINE`, or `NAME` of a fault without a line.
fn is_refused(fault: &HexFault, gives: &str) -> bool {
    let (name, line) = gives.split_once(' ').unwrap_or((gives, ""));
    name == fault.name() && line.parse::<usize>().ok() == fault.line()
}

/// Whether a text loads as it says; `None` where what it gives has none of the forms.
pub fn loads(alloc: Global, text: &[u8], gives: &str) -> Result<Option<bool>, AllocError> {
    match load(alloc, text) {
        Ok(flash) => {
            let Ok(copy) = flash.copy() else {
                return Err(AllocError);
            };
            Ok(is_accepted(&flash, &copy, gives))
        }
        Err(HexFault::NoMemory) => Err(AllocError),
        Err(fault) => Ok(Some(is_refused(&fault, gives))),
    }
}
