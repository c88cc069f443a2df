// Where a jump, a call or a branch goes.
ghost use Rattle.std.specs.Prelude.{◌≡◌, ◌<◌, ◌≤◌};
ghost use Rattle.asm_words.specs.Labels.{label_at};
ghost use Rattle.asm_words.specs.Target.{distance, offset_of, offset_to, offset_to_label, label_offset, reach};

use crate::instruction::WordFault;
use crate::is_label;
use crate::labels::{Label, find_label};
use crate::number::number;
use std::collections::BTreeMap;

/// How far a relative jump goes from the next instruction, in words.
#[derive(Clone, Copy)]
pub struct JumpOffset {
    pub is_back: bool,
    pub words: u32,
}

// A distance that is printed in bytes.
fn distance(is_back: bool, bytes: Option<u32>) -> Result<JumpOffset, WordFault>
    ensures { result ≡ distance is_back bytes }
{
    match bytes {
        None => Err(WordFault::BadOperand),
        Some(n) => {
            if n % 2 == 1 {
                return Err(WordFault::OutOfReach);
            }
            Ok(JumpOffset {
                is_back,
                words: n / 2,
            })
        }
    }
}

// The offset from an instruction at the word address `at` to another address.
fn offset_to(at: u32, address: u32) -> JumpOffset
    requires { at ≤ 65536 }
    ensures { result ≡ offset_to at address }
{
    if address > at {
        JumpOffset {
            is_back: false,
            words: address - at - 1,
        }
    } else {
        JumpOffset {
            is_back: true,
            words: at + 1 - address,
        }
    }
}

fn label_offset(label: Option<Label>, at: u32) -> Result<JumpOffset, WordFault>
    requires { at ≤ 65536 }
    ensures { result ≡ label_offset label at }
{
    match label {
        None => Err(WordFault::NoLabel),
        Some(label) => Ok(offset_to(at, label.address)),
    }
}

fn offset_to_label<'t>(
    text: &'t [u8],
    at: u32,
    labels: &BTreeMap<&'t [u8], Label>,
) -> Result<JumpOffset, WordFault>
    requires { at ≤ 65536 }
    ensures { result ≡ offset_to_label text.entry.now at (label_at labels.now) }
{
    if !is_label(text) {
        return Err(WordFault::BadOperand);
    }
    label_offset(find_label(labels, text), at)
}

/// How far a relative jump at the word address `at` goes: `.+N` or `.-N` bytes, or to a label.
#[tactic(auto, unfolding(crate::specs::Target::offset_of))]
pub fn read_offset<'t>(
    text: &'t [u8],
    at: u32,
    labels: &BTreeMap<&'t [u8], Label>,
) -> Result<JumpOffset, WordFault>
    requires { at ≤ 65536 }
    ensures { result ≡ offset_of text.entry.now at (label_at labels.now) }
{
    match text {
        [b'.', b'+', digits @ ..] => distance(false, number(digits)),
        [b'.', b'-', digits @ ..] => distance(true, number(digits)),
        _ => offset_to_label(text, at, labels),
    }
}

/// The bits of an offset in a field that reaches `half` words back and one less forward.
pub fn reach(half: u32, offset: JumpOffset) -> Result<u32, WordFault>
    requires some { 0 < half }
    requires small { half ≤ 2048 }
    ensures { result ≡ reach half offset }
{
    if offset.is_back {
        if offset.words > half {
            return Err(WordFault::OutOfReach);
        }
        return Ok((2 * half - offset.words) % (2 * half));
    }
    if offset.words >= half {
        return Err(WordFault::OutOfReach);
    }
    Ok(offset.words)
}
