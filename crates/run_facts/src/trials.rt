// One line of a file of trials.
use std::alloc::{AllocError, Global};
use stored_cases::{hex_pair, words_of};

/// A run: an image, the cycle limit, how many cycles its instructions and entries are told, and the bytes that arrive
/// at USART0: the cycle of the first, how many cycles one comes after another, and the bytes; and whether two bytes of
/// its SRAM are told.
#[derive(Drop)]
pub struct Trial<'l> {
    pub image: &'l str,
    pub limit: u32,
    pub told: u32,
    pub from: u32,
    pub every: u16,
    pub bytes: Vec<u8>,
    pub sram: bool,
}

// Pairs of hexadecimal digits; `-` is none.
fn bytes_of(alloc: Global, word: &str) -> Result<Option<Vec<u8>>, AllocError> {
    let mut bytes = Vec::new(alloc);
    if word == "-" {
        return Ok(Some(bytes));
    }
    for digits in word.as_bytes().chunks(2) {
        match hex_pair(digits) {
            Some(byte) => bytes.push(byte)?,
            None => return Ok(None),
        }
    }
    Ok(Some(bytes))
}

// The numbers of a line, without its bytes.
fn numbered<'l>(words: &[&'l str], bytes: Vec<u8>, sram: bool) -> Option<Trial<'l>> {
    let [image, limit, told, from, every, _] = words else {
        return None;
    };
    Some(Trial {
        image: *image,
        limit: limit.parse().ok()?,
        told: told.parse().ok()?,
        from: from.parse().ok()?,
        every: every.parse().ok()?,
        bytes,
        sram,
    })
}

/// The trial of a line `IMAGE LIMIT TOLD FROM EVERY BYTES`, and perhaps `sram`; `None` where it is no such line.
pub fn read_trial<'l>(alloc: Global, line: &'l str) -> Result<Option<Trial<'l>>, AllocError> {
    let words = words_of(alloc, line)?;
    let (words, sram) = match words.as_slice() {
        [front @ .., last] if *last == "sram" => (front, true),
        all => (all, false),
    };
    let [.., last] = words else {
        return Ok(None);
    };
    match bytes_of(alloc, *last)? {
        Some(bytes) => Ok(numbered(words, bytes, sram)),
        None => Ok(None),
    }
}
