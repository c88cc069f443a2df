// What one line says.
ghost use Rattle.std.specs.Prelude.{◌≡◌};
ghost use Rattle.std.specs.List.{list_all};
ghost use Rattle.asm_words.specs.Text.{body_of, is_printed};
ghost use Rattle.asm_words.specs.Line.{line_of, said, texts_of, told, instruction_of, marked_of, pair_of, statement_of};

use crate::text::{
    address, is_label, is_printed, place_of, place_of_blank, trim_end, trim_start, without_comment,
    without_cr,
};

/// What stands behind a mnemonic: the operands, separated by commas, each without blanks before it.
#[derive(Clone, Copy)]
pub enum Operands<'t> {
    Zero,
    One(&'t [u8]),
    Two(&'t [u8], &'t [u8]),
    /// Three or more, which no instruction has.
    Many,
}

/// An instruction as it stands in a line.
#[derive(Clone, Copy)]
pub struct Instruction<'t> {
    /// The word address that the line names, if it names one.
    pub address: Option<u16>,
    pub mnemonic: &'t [u8],
    pub operands: Operands<'t>,
}

/// What a line says.
#[derive(Clone, Copy)]
pub enum Line<'t> {
    /// Nothing, or blanks and a comment.
    Empty,
    /// `LABEL:`, without the colon.
    Label(&'t [u8]),
    Instruction(Instruction<'t>),
    /// A byte that no line has, or a colon in a line that is no label.
    NotALine,
}

// Two operands, where the second text has no comma.
fn pair_of<'t>(first: &'t [u8], second: &'t [u8]) -> Operands<'t>
    ensures { told result ≡ pair_of first.entry.now second.entry.now }
{
    match place_of(b',', second) {
        Some(_) => Operands::Many,
        None => Operands::Two(first, second),
    }
}

/// The operands in the text behind a mnemonic.
#[tactic(auto, unfolding(crate::specs::Line::texts_of))]
fn split_operands(text: &[u8]) -> Operands<'_>
    ensures { told result ≡ texts_of text.now }
{
    if text.is_empty() {
        return Operands::Zero;
    }
    match place_of(b',', text) {
        None => Operands::One(text),
        Some(i) => pair_of(&text[..i], trim_start(&text[i + 1..])),
    }
}

fn split_instruction<'t>(address: Option<u16>, text: &'t [u8]) -> Instruction<'t>
    ensures address { result.address ≡ address }
    ensures mnemonic { result.mnemonic.now ≡ (instruction_of text.entry.now).0 }
    ensures operands { told result.operands ≡ (instruction_of text.entry.now).1 }
{
    match place_of_blank(text) {
        None => Instruction {
            address,
            mnemonic: text,
            operands: Operands::Zero,
        },
        Some(i) => Instruction {
            address,
            mnemonic: &text[..i],
            operands: split_operands(trim_start(&text[i..])),
        },
    }
}

/// A line that has a colon.
fn read_marked(body: &[u8]) -> Line<'_>
    ensures { said result ≡ marked_of body.now }
{
    match body {
        [name @ .., b':'] if is_label(name) => Line::Label(name),
        _ => Line::NotALine,
    }
}

fn is_printed_text(text: &[u8]) -> bool
    ensures { result ≡ list_all is_printed text.now }
{
    text.iter().all(|b| is_printed(*b))
}

fn read_body(body: &[u8]) -> Line<'_>
    ensures { said result ≡ statement_of body.now }
{
    if !is_printed_text(body) {
        return Line::NotALine;
    }
    if body.is_empty() {
        return Line::Empty;
    }
    if place_of(b':', body).is_some() {
        return read_marked(body);
    }
    match address(body) {
        Some(at) => Line::Instruction(split_instruction(Some(at), &body[5..])),
        None => Line::Instruction(split_instruction(None, body)),
    }
}

/// What a line says by itself: the bytes between two LFs, without a CR at its end, without `;` and what follows it, and
/// without blanks at both ends.
#[tactic(auto, unfolding(crate::specs::Line::line_of))]
pub fn read_line(text: &[u8]) -> Line<'_>
    ensures { said result ≡ line_of text.now }
{
    read_body(trim_end(trim_start(without_comment(without_cr(text)))))
}
