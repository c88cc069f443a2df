// One line at its address.
ghost use Rattle.std.specs.Prelude.{◌≡◌, ◌≤◌, ◌+◌, true, is_some, length, min, IfOk, None};
ghost use Rattle.asm_words.specs.Line.{said, told};
ghost use Rattle.asm_words.specs.Labels.{label_at};
ghost use Rattle.asm_words.specs.Encoded.{encoded};
ghost use Rattle.asm_words.specs.Opcodes.{width};
ghost use Rattle.asm_text.specs.Source.{behind, first_of, is_at, piece_of, placed, size, words_of};

use crate::fault::LineFault;
use asm_words::{Instruction, Label, Line, Piece, WordFault, encode, find_label, width};
use std::collections::BTreeMap;

/// The first word address past the flash.
pub const END: u32 = 65_536;

fn size_of(line: &Line) -> u32
    ensures value { result ≡ size (said line.now) }
    ensures small { result ≤ 2 }
{
    match line {
        Line::Instruction(it) => width(it.mnemonic),
        _ => 0,
    }
}

/// The word address behind a line at a word address.
pub fn behind(at: u32, line: &Line) -> u32
    requires { at ≤ 65536 }
    ensures value { result ≡ behind at (said line.now) }
    ensures small { result ≤ 65536 }
{
    (at + size_of(line)).min(END)
}

fn is_at(address: Option<u16>, at: u32) -> bool
    ensures { result ≡ is_at address at }
{
    match address {
        None => true,
        Some(named) => u32::from(named) == at,
    }
}

// The faults of an instruction at an address in their order. `is_here` says that it names no other address.
fn placed(
    at: u32,
    is_here: bool,
    words: u32,
    encoded: Result<Piece, WordFault>,
) -> Result<Option<Piece>, LineFault>
    requires at { at ≤ 65536 }
    requires some { 1 ≤ words }
    requires words { words ≤ 2 }
    requires second { IfOk encoded (λ p. is_some p.second ≡ true → words ≡ 2) }
    ensures value { result ≡ placed at is_here words encoded }
    ensures room { IfOk result (λ p. at + length (words_of p) ≤ min (at + words) 65536) }
{
    let is_past = at + words > END;
    match encoded {
        Err(WordFault::UnknownMnemonic) => Err(LineFault::UnknownMnemonic),
        Err(WordFault::BadOperand) => Err(LineFault::BadOperand),
        _ if !is_here => Err(LineFault::BadAddress),
        Err(WordFault::NoLabel) => Err(LineFault::NoLabel),
        _ if is_past => Err(LineFault::PastFlash),
        Err(WordFault::OutOfReach) => Err(LineFault::OutOfReach),
        Ok(piece) => Ok(Some(piece)),
    }
}

fn place_instruction<'t>(
    labels: &BTreeMap<&'t [u8], Label>,
    at: u32,
    it: Instruction<'t>,
) -> Result<Option<Piece>, LineFault>
    requires { at ≤ 65536 }
    ensures value { result ≡ placed at (is_at it.entry.address at) (width it.entry.mnemonic.now) (encoded it.entry.mnemonic.now (told it.entry.operands) at (label_at labels.now)) }
    ensures room { IfOk result (λ p. at + length (words_of p) ≤ min (at + width it.entry.mnemonic.now) 65536) }
{
    let words = width(it.mnemonic);
    let encoded = encode(it.mnemonic, it.operands, at, labels);
    placed(at, is_at(it.address, at), words, encoded)
}

// A label's line is the first that has it.
fn first_of(index: usize, label: Option<Label>) -> Result<Option<Piece>, LineFault>
    ensures value { result ≡ first_of index label }
    ensures none { IfOk result (λ p. p ≡ None) }
{
    match label {
        None => Ok(None),
        Some(label) => {
            if label.line == index {
                Ok(None)
            } else {
                Err(LineFault::TwiceLabelled)
            }
        }
    }
}

/// The words of a line, if it has some, or its first fault. `index` is its number, from 0, and `at` its word address.
#[tactic(auto, unfolding(crate::specs::Source::piece_of))]
pub fn piece_of<'t>(
    labels: &BTreeMap<&'t [u8], Label>,
    index: usize,
    at: u32,
    line: Line<'t>,
) -> Result<Option<Piece>, LineFault>
    requires { at ≤ 65536 }
    ensures value { result ≡ piece_of (label_at labels.now) index at (said line.entry) }
    ensures room { IfOk result (λ p. at + length (words_of p) ≤ behind at (said line.entry)) }
{
    match line {
        Line::Empty => Ok(None),
        Line::Label(name) => first_of(index, find_label(labels, name)),
        Line::Instruction(it) => place_instruction(labels, at, it),
        Line::NotALine => Err(LineFault::NotALine),
    }
}
