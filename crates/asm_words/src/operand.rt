// What one operand gives: bits of the first word, or the second word.
ghost use Rattle.std.specs.Prelude.{◌≡◌, ◌<◌, ◌≤◌, true, is_some, IfOk, None};
ghost use Rattle.asm_words.specs.Number.{number, register};
ghost use Rattle.asm_words.specs.Fields.{register_bits, number_bits};
ghost use Rattle.asm_words.specs.Labels.{label_at};
ghost use Rattle.asm_words.specs.Opcodes.{has_word};
ghost use Rattle.asm_words.specs.Target.{offset_of};
ghost use Rattle.asm_words.specs.Encoded.{bits_part, data_part, number_part, register_part, offset_part, place_label, place_part, part_of};

use crate::field::{displaced_by, flash_pointer, number_bits, pointer, register_bits};
use crate::form::{Field, NumberField, RegisterField};
use crate::instruction::WordFault;
use crate::is_label;
use crate::labels::{Label, find_label};
use crate::number::{number, register};
use crate::target::{reach, read_offset};
use std::collections::BTreeMap;

/// What an operand gives.
#[derive(Clone, Copy)]
pub struct Part {
    pub bits: u16,
    pub second: Option<u16>,
}

fn bits_part(bits: Option<u16>) -> Result<Part, WordFault>
    ensures value { result ≡ bits_part bits }
    ensures first { IfOk result (λ p. p.second ≡ None) }
{
    match bits {
        None => Err(WordFault::BadOperand),
        Some(bits) => Ok(Part { bits, second: None }),
    }
}

fn register_part(field: RegisterField, text: &[u8]) -> Result<Part, WordFault>
    ensures value { result ≡ register_part field (register text.now) }
    ensures first { IfOk result (λ p. p.second ≡ None) }
{
    match register(text) {
        None => Err(WordFault::BadOperand),
        Some(n) => bits_part(register_bits(field, n)),
    }
}

fn number_part(field: NumberField, text: &[u8]) -> Result<Part, WordFault>
    ensures value { result ≡ number_part field (number text.now) }
    ensures first { IfOk result (λ p. p.second ≡ None) }
{
    match number(text) {
        None => Err(WordFault::BadOperand),
        Some(n) => bits_part(number_bits(field, n)),
    }
}

// An address in the second word.
fn data_part(address: Option<u32>) -> Result<Part, WordFault>
    ensures { result ≡ data_part address }
{
    match address {
        None => Err(WordFault::BadOperand),
        Some(n) => {
            if n > 65_535 {
                return Err(WordFault::BadOperand);
            }
            Ok(Part {
                bits: 0,
                second: Some(n as u16),
            })
        }
    }
}

fn place_label(label: Option<Label>) -> Result<Part, WordFault>
    ensures { result ≡ place_label label }
{
    match label {
        None => Err(WordFault::NoLabel),
        Some(label) => {
            if label.address > 65_535 {
                return Err(WordFault::OutOfReach);
            }
            Ok(Part {
                bits: 0,
                second: Some(label.address as u16),
            })
        }
    }
}

fn place_part<'t>(text: &'t [u8], labels: &BTreeMap<&'t [u8], Label>) -> Result<Part, WordFault>
    ensures { result ≡ place_part text.entry.now (label_at labels.now) }
{
    if is_label(text) {
        return place_label(find_label(labels, text));
    }
    data_part(number(text))
}

fn offset_part<'t>(
    half: u32,
    scale: u32,
    text: &'t [u8],
    at: u32,
    labels: &BTreeMap<&'t [u8], Label>,
) -> Result<Part, WordFault>
    requires some { 0 < half }
    requires small { half ≤ 2048 }
    requires scale { scale ≤ 8 }
    requires at { at ≤ 65536 }
    ensures value { result ≡ offset_part half scale (offset_of text.entry.now at (label_at labels.now)) }
    ensures first { IfOk result (λ p. p.second ≡ None) }
{
    match read_offset(text, at, labels) {
        Err(fault) => Err(fault),
        Ok(offset) => match reach(half, offset) {
            Err(fault) => Err(fault),
            Ok(bits) => Ok(Part {
                bits: (scale * bits) as u16,
                second: None,
            }),
        },
    }
}

/// What an operand gives in a field of an instruction at the word address `at`.
#[tactic(auto, unfolding(crate::specs::Encoded::part_of))]
pub fn read_operand<'t>(
    field: Field,
    text: &'t [u8],
    at: u32,
    labels: &BTreeMap<&'t [u8], Label>,
) -> Result<Part, WordFault>
    requires { at ≤ 65536 }
    ensures value { result ≡ part_of field text.entry.now at (label_at labels.now) }
    ensures second { IfOk result (λ p. is_some p.second ≡ true → has_word field ≡ true) }
{
    match field {
        Field::Register(field) => register_part(field, text),
        Field::Number(field) => number_part(field, text),
        Field::Pointer => bits_part(pointer(text)),
        Field::FlashPointer => bits_part(flash_pointer(text)),
        Field::Displaced => bits_part(displaced_by(text)),
        Field::Data => data_part(number(text)),
        Field::Place => place_part(text, labels),
        Field::Jump => offset_part(2048, 1, text, at, labels),
        Field::Branch => offset_part(64, 8, text, at, labels),
    }
}
