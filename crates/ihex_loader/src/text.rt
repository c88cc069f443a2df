// The text of a whole file.
ghost use Rattle.std.specs.Prelude.{◌≡◌, ◌≤◌, ◌*◌, ◌++◌, ◌<◌, [], IfOk, OnOk, None, drop, length, take};
ghost use Rattle.ihex_loader.specs.Flash.{image_of_words};
ghost use Rattle.ihex_loader.specs.Image.{hex_fault, image};
ghost use Rattle.ihex_loader.specs.Hex.{base_at, count, hex_of, record_at, record_line, records_to};

use crate::flash::bytes_of;
use crate::rows::put_record;
use avr_base::NoMemory;
use std::alloc::{AllocError, Global};

// The data bytes of a record.
const RECORD: usize = 16;

// The record at the byte address 0x10000.
const SECOND_SEGMENT: usize = 4_096;

// The bytes of record `n`, counted from 0: 16 of them, or what is left.
fn row(n: usize, bytes: &[u8]) -> &[u8]
    requires { RECORD * n < length bytes.now }
    ensures row { result.now ≡ take 16 (drop (16 * n) bytes.entry.now) }
    ensures few { length result.now ≤ 16 }
{
    let rest = &bytes[RECORD * n..];
    if rest.len() < RECORD {
        return rest;
    }
    &rest[..RECORD]
}

// Appends the base of the second segment before its first record.
fn put_base(alloc: Global, n: usize, text: &mut Vec<u8>) -> Result<(), AllocError>
    ensures { OnOk result (text.new.items ≡ text.old.items ++ base_at n) }
{
    if n == SECOND_SEGMENT {
        return put_record(alloc, 4, 0, &[0, 1], text);
    }
    Ok(())
}

// Appends record `n` of the bytes, counted from 0, and before that of the second segment its base.
#[tactic(auto, unfolding(crate::specs::Hex::record_at))]
fn put_row(alloc: Global, n: usize, bytes: &[u8], text: &mut Vec<u8>) -> Result<(), AllocError>
    requires within { RECORD * n < length bytes.now }
    requires few { length bytes.now ≤ 131072 }
    ensures { OnOk result (text.new.items ≡ text.old.items ++ record_at n bytes.now) }
{
    put_base(alloc, n, text)?;
    let offset = (RECORD * n % 65_536) as u16;
    put_record(alloc, 0, offset, row(n, bytes), text)
}

// Appends all records of the bytes, and the end record.
fn put_rows(alloc: Global, bytes: &[u8], text: &mut Vec<u8>) -> Result<(), AllocError>
    requires { length bytes.now ≤ 131072 }
    ensures { OnOk result (text.new.items ≡ text.old.items ++ (records_to (count bytes.now) bytes.now ++ record_line 1 0 [])) }
{
    for n in 0..(bytes.len() + 15) / RECORD {
        put_row(alloc, n, bytes, text)?;
    }
    put_record(alloc, 1, 0, &[], text)
}

// The text of words, by the rules alone.
#[tactic(auto, unfolding(crate::specs::Hex::hex_of))]
fn written(alloc: Global, words: &[u16]) -> Result<Vec<u8>, NoMemory>
    requires { length words.now ≤ 65536 }
    ensures { IfOk result (λ text. text.items ≡ hex_of words.now) }
{
    let bytes = bytes_of(alloc, words)?;
    let mut text = Vec::new(alloc);
    put_rows(alloc, &bytes, &mut text)?;
    Ok(text)
}

/// The Intel HEX text of `words`, at most 65,536 of them, from word address 0 on, low byte first: records of 16 bytes,
/// the last one shorter, in upper case, each ended by LF; before the byte 0x10000 the linear base, and last the end
/// record.
pub fn hex_text(alloc: Global, words: &[u16]) -> Result<Vec<u8>, NoMemory>
    requires { length words.now ≤ 65536 }
    ensures text { IfOk result (λ text. text.items ≡ hex_of words.now) }
    // so it is an accepted image, and gives the flash of the words
    ensures sound { IfOk result (λ text. hex_fault text.items ≡ None) }
    ensures image { IfOk result (λ text. image text.items ≡ image_of_words words.now) }
{
    match written(alloc, words) {
        Ok(text) => Ok(text),
        Err(fault) => Err(fault),
    }
}
