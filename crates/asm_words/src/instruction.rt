// The words of an instruction.
ghost use Rattle.std.specs.Prelude.{◌≡◌, ◌≤◌, ◌||◌, true, is_some, IfOk, None};
ghost use Rattle.asm_words.specs.Line.{told};
ghost use Rattle.asm_words.specs.Labels.{label_at};
ghost use Rattle.asm_words.specs.Opcodes.{has_word, width};
ghost use Rattle.asm_words.specs.Encoded.{checked, encoded, no_form, one_piece, second_of, two_piece};

use crate::Operands;
use crate::form::{OneForm, TwoForm};
use crate::labels::Label;
use crate::opcodes::{bare, is_known, one, two};
use crate::operand::{Part, read_operand};
use avr_decoder::{Op, decode};
use std::collections::BTreeMap;

/// The words of an instruction.
#[derive(Clone, Copy)]
pub struct Piece {
    pub first: u16,
    /// The second word of LDS, STS, JMP and CALL.
    pub second: Option<u16>,
}

/// Why an instruction has no words. The first that applies is told.
#[derive(Clone, Copy)]
pub enum WordFault {
    /// The mnemonic is none.
    UnknownMnemonic,
    /// The operands have no form of the mnemonic, a register or a number cannot stand there, or the manual leaves the
    /// result undefined.
    BadOperand,
    /// No line has the label.
    NoLabel,
    /// A relative target is at an odd number of bytes or too far away, or the label of JMP or CALL is at word 65,536.
    OutOfReach,
}

// Why there is no form of a mnemonic with so many operands.
fn no_form(mnemonic: &[u8]) -> WordFault
    ensures { result ≡ no_form mnemonic.now }
{
    if is_known(mnemonic) {
        WordFault::BadOperand
    } else {
        WordFault::UnknownMnemonic
    }
}

fn one_piece<'t>(
    form: OneForm,
    text: &'t [u8],
    at: u32,
    labels: &BTreeMap<&'t [u8], Label>,
) -> Result<Piece, WordFault>
    requires { at ≤ 65536 }
    ensures value { result ≡ one_piece form text.entry.now at (label_at labels.now) }
    ensures second { IfOk result (λ p. is_some p.second ≡ true → has_word form.field ≡ true) }
{
    match read_operand(form.field, text, at, labels) {
        Err(fault) => Err(fault),
        Ok(it) => Ok(Piece {
            first: form.opcode.wrapping_add(it.bits),
            second: it.second,
        }),
    }
}

// The piece of an instruction, unless the manual leaves undefined what its word does.
fn checked(piece: Piece) -> Result<Piece, WordFault>
    ensures value { result ≡ checked piece }
    ensures same { IfOk result (λ p. p ≡ piece) }
{
    match decode(piece.first, 0) {
        Op::Undefined { .. } => Err(WordFault::BadOperand),
        _ => Ok(piece),
    }
}

fn second_of(p: Part, q: Part) -> Option<u16>
    ensures value { result ≡ second_of p.second q.second }
    ensures some { is_some result ≡ true → (is_some p.second || is_some q.second) ≡ true }
{
    match p.second {
        Some(word) => Some(word),
        None => q.second,
    }
}

fn two_piece<'t>(
    form: TwoForm,
    a: &'t [u8],
    b: &'t [u8],
    at: u32,
    labels: &BTreeMap<&'t [u8], Label>,
) -> Result<Piece, WordFault>
    requires { at ≤ 65536 }
    ensures value { result ≡ two_piece form a.entry.now b.entry.now at (label_at labels.now) }
    ensures second { IfOk result (λ p. is_some p.second ≡ true → (has_word form.first || has_word form.second) ≡ true) }
{
    match read_operand(form.first, a, at, labels) {
        Err(fault) => Err(fault),
        Ok(p) => match read_operand(form.second, b, at, labels) {
            Err(fault) => Err(fault),
            Ok(q) => checked(Piece {
                first: form.opcode.wrapping_add(p.bits).wrapping_add(q.bits),
                second: second_of(p, q),
            }),
        },
    }
}

/// The words of an instruction at the word address `at`, or the first fault of those of `WordFault` that it has.
#[tactic(auto, unfolding(crate::specs::Encoded::encoded))]
pub fn encode<'t>(
    mnemonic: &'t [u8],
    operands: Operands<'t>,
    at: u32,
    labels: &BTreeMap<&'t [u8], Label>,
) -> Result<Piece, WordFault>
    requires { at ≤ 65536 }
    ensures value { result ≡ encoded mnemonic.entry.now (told operands.entry) at (label_at labels.now) }
    // so the piece has at most the words of the mnemonic
    ensures second { IfOk result (λ p. is_some p.second ≡ true → width mnemonic.entry.now ≡ 2) }
{
    match operands {
        Operands::Zero => {
            if let Some(first) = bare(mnemonic) {
                return Ok(Piece {
                    first,
                    second: None,
                });
            }
        }
        Operands::One(a) => {
            if let Some(form) = one(mnemonic) {
                return one_piece(form, a, at, labels);
            }
        }
        Operands::Two(a, b) => {
            if let Some(form) = two(mnemonic) {
                return two_piece(form, a, b, at, labels);
            }
        }
        Operands::Many => {}
    }
    Err(no_form(mnemonic))
}
