// One line of an image by itself.
ghost use Rattle.std.specs.Prelude.{◌≡◌, ◌%◌, IfOk, sum};
ghost use Rattle.std.specs.List.{list_all};
ghost use Rattle.hex.specs.Hex.{decode_of};
ghost use Rattle.ihex_loader.specs.Line.{line_of, record_of, record_of_pairs, marked_line, is_blank, without_cr, has_length, kind_of, offset_of, data_of};
ghost use Rattle.ihex_loader.specs.Pass.{shown};

use crate::fault::LineFault;
use crate::record::RecordBytes;
use std::alloc::{AllocError, Global};

/// What a line says.
#[derive(Drop)]
pub enum Parsed {
    Blank,
    Faulty(LineFault),
    Record(RecordBytes),
}

/// The line without one CR at its end.
pub fn trimmed(text: &[u8]) -> &[u8]
    ensures { result.now ≡ without_cr text.now }
{
    match text {
        [front @ .., b'\r'] => front,
        _ => text,
    }
}

// Whether a record of this type may have `len` data bytes.
fn fits(kind: u8, len: usize) -> bool
    ensures { result ≡ has_length kind len }
{
    match kind {
        0 => true,
        1 => len == 0,
        2 | 4 => len == 2,
        _ => len == 4,
    }
}

/// The sum of the bytes modulo 256.
pub fn sum_of(bytes: &[u8]) -> u8
    ensures { result ≡ sum bytes.now % 256 }
{
    let mut sum = 0u8;
    for b in bytes {
        sum = sum.wrapping_add(*b);
    }
    sum
}

fn read_record(bytes: Vec<u8>) -> Parsed
    ensures { shown result ≡ record_of bytes.items }
{
    if bytes.len() < 5 {
        return Parsed::Faulty(LineFault::NotARecord);
    }
    if sum_of(&bytes) != 0 {
        return Parsed::Faulty(LineFault::BadSum);
    }
    let kind = bytes[3];
    if kind > 5 {
        return Parsed::Faulty(LineFault::BadType);
    }
    let len = bytes.len() - 5;
    if usize::from(bytes[0]) != len || !fits(kind, len) {
        return Parsed::Faulty(LineFault::BadLength);
    }
    Parsed::Record(RecordBytes::new(bytes))
}

fn read_pairs(alloc: Global, digits: &[u8]) -> Result<Parsed, AllocError>
    ensures { IfOk result (λ parsed. shown parsed ≡ record_of_pairs (decode_of digits.now)) }
{
    match hex::decode(alloc, digits) {
        Ok(bytes) => Ok(read_record(bytes)),
        Err(hex::FromHexError::OutOfMemory) => Err(AllocError),
        Err(_) => Ok(Parsed::Faulty(LineFault::NotARecord)),
    }
}

fn read_marked(alloc: Global, text: &[u8]) -> Result<Parsed, AllocError>
    ensures { IfOk result (λ parsed. shown parsed ≡ marked_line text.now) }
{
    match text {
        [b':', digits @ ..] => read_pairs(alloc, digits),
        _ => Ok(Parsed::Faulty(LineFault::NotARecord)),
    }
}

fn is_blank_line(text: &[u8]) -> bool
    ensures { result ≡ list_all is_blank text.now }
{
    text.iter().all(|c| *c == b' ' || *c == b'\t')
}

/// Reads a line, without the line's end.
#[tactic(auto, unfolding(crate::specs::Line::line_of))]
pub fn parse(alloc: Global, text: &[u8]) -> Result<Parsed, AllocError>
    ensures { IfOk result (λ parsed. shown parsed ≡ line_of text.now) }
{
    if is_blank_line(text) {
        return Ok(Parsed::Blank);
    }
    read_marked(alloc, text)
}
