// The text of an instruction, and its line.
ghost use Rattle.std.specs.Prelude.{◌≡◌, ◌+◌, ◌≤◌, ◌++◌, length};
ghost use Rattle.arrayvec.specs.ArrayString.{array_string_len};
ghost use Rattle.avr_disassembler.specs.Text.{text_of, line_of, operand_text, operands_text, pointer_text};

use crate::parts::{Operand, Operands, Pointer, mnemonic_of, operands_of};
use arrayvec::ArrayString;
use avr_decoder::Op;
use sim_io::{put_decimal, put_distance, put_hex2, put_hex4};

/// A pointer as it is printed.
#[tactic(auto, unfolding(crate::specs::Text::pointer_text))]
fn pointer_name(pointer: Pointer) -> &'static str
    ensures text { result.now ≡ pointer_text pointer }
    ensures short { length result.now ≤ 2 }
{
    match pointer {
        Pointer::X => "X",
        Pointer::XInc => "X+",
        Pointer::XDec => "-X",
        Pointer::YInc => "Y+",
        Pointer::YDec => "-Y",
        Pointer::Z => "Z",
        Pointer::ZInc => "Z+",
        Pointer::ZDec => "-Z",
    }
}

/// Appends one operand, at most seven bytes.
#[tactic(auto, unfolding(crate::specs::Text::operand_text))]
fn put_operand<const N: usize>(operand: Operand, out: &mut ArrayString<N>)
    requires { array_string_len out.old + 7 ≤ N }
    ensures bytes { out.new.bytes ≡ out.old.bytes ++ operand_text operand }
    ensures len { array_string_len out.new ≤ array_string_len out.old + 7 }
{
    match operand {
        Operand::Register(r) => {
            out.push_str("r");
            put_decimal(r.get(), out);
        }
        Operand::Byte(n) => {
            out.push_str("0x");
            put_hex2(n, out);
        }
        Operand::Address(n) => {
            out.push_str("0x");
            put_hex4(n, out);
        }
        Operand::Number(n) => put_decimal(n, out),
        Operand::Offset(k) => put_distance(k, out),
        Operand::At(pointer) => out.push_str(pointer_name(pointer)),
        Operand::PastY(q) => {
            out.push_str("Y+");
            put_decimal(q, out);
        }
        Operand::PastZ(q) => {
            out.push_str("Z+");
            put_decimal(q, out);
        }
    }
}

/// Appends the operands, each behind a space and with a comma between two: at most 17 bytes.
#[tactic(auto, unfolding(crate::specs::Text::operands_text))]
fn put_operands<const N: usize>(operands: Operands, out: &mut ArrayString<N>)
    requires { array_string_len out.old + 17 ≤ N }
    ensures bytes { out.new.bytes ≡ out.old.bytes ++ operands_text operands }
    ensures len { array_string_len out.new ≤ array_string_len out.old + 17 }
{
    match operands {
        Operands::Zero => {}
        Operands::One(a) => {
            out.push_str(" ");
            put_operand(a, out);
        }
        Operands::Two(a, b) => {
            out.push_str(" ");
            put_operand(a, out);
            out.push_str(", ");
            put_operand(b, out);
        }
    }
}

/// Appends the text of an instruction, at most 23 bytes, to a text of any capacity that has room for them.
#[tactic(auto, unfolding(crate::specs::Text::text_of), using(crate::proofs::Short::short))]
fn put_text<const N: usize>(op: Op, out: &mut ArrayString<N>)
    requires { array_string_len out.old + 23 ≤ N }
    ensures bytes { out.new.bytes ≡ out.old.bytes ++ text_of op }
    ensures len { array_string_len out.new ≤ array_string_len out.old + 23 }
{
    out.push_str(mnemonic_of(&op));
    put_operands(operands_of(op), out);
}

/// Replaces `out` by the text of an instruction: the mnemonic and the operands, as `ldi r16, 0x01`, `rjmp .-2`,
/// `std Y+5, r0`. Its 32 bytes always suffice: no text is longer than 23.
pub fn text(op: Op, out: &mut ArrayString<32>)
    ensures exact { out.new.bytes ≡ text_of op }
    ensures fits { length (text_of op) ≤ 23 }
{
    out.clear();
    put_text(op, out);
}

/// Appends the line of an instruction at the word address `pc`, at most 28 bytes, to a text of any capacity that has
/// room for them: the address in four hexadecimal digits, a space and the text.
#[tactic(auto, unfolding(crate::specs::Text::line_of))]
pub fn put_line<const N: usize>(pc: u16, op: Op, out: &mut ArrayString<N>)
    requires { array_string_len out.old + 28 ≤ N }
    ensures bytes { out.new.bytes ≡ out.old.bytes ++ line_of pc op }
    ensures len { array_string_len out.new ≤ array_string_len out.old + 28 }
{
    put_hex4(pc, out);
    out.push_str(" ");
    put_text(op, out);
}

/// Replaces `out` by the line of an instruction at the word address `pc`, as `put_line` appends it. Its 40 bytes always
/// suffice: no line is longer than 28.
pub fn line(pc: u16, op: Op, out: &mut ArrayString<40>)
    ensures exact { out.new.bytes ≡ line_of pc op }
    ensures fits { length (line_of pc op) ≤ 28 }
{
    out.clear();
    put_line(pc, op, out);
}
