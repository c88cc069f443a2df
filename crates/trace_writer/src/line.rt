// The line of a row.
ghost use Rattle.std.specs.Prelude.{◌≡◌, ◌+◌, ◌≤◌, ◌++◌, length};
ghost use Rattle.arrayvec.specs.ArrayString.{array_string_len};
ghost use Rattle.trace_writer.specs.Line.{kind_text, row_line, state_text};

use arrayvec::ArrayString;
use avr_decoder::decode;
use avr_disassembler::put_line;
use node_core::{Kind, NodeEnd, Row};
use sim_io::{put_decimal, put_hex2, put_hex4};

/// How many bytes the longest line has at most.
pub const LINE: usize = 64;

#[tactic(auto, unfolding(crate::specs::Line::state_text))]
fn name_of(state: NodeEnd) -> &'static str
    ensures text { result.now ≡ state_text state }
    ensures short { length result.now ≤ 7 }
{
    match state {
        NodeEnd::Running => "running",
        NodeEnd::Asleep => "asleep",
        NodeEnd::Stopped => "stopped",
    }
}

// Appends what stands behind the cycle and the node.
#[tactic(auto, unfolding(crate::specs::Line::kind_text))]
fn put_kind<const N: usize>(kind: Kind, page: &mut ArrayString<N>)
    requires { array_string_len page.old + 35 ≤ N }
    ensures bytes { page.new.bytes ≡ page.old.bytes ++ kind_text kind }
    ensures len { array_string_len page.new ≤ array_string_len page.old + 35 }
{
    match kind {
        Kind::Instr { pc, word, next } => {
            page.push_str("instr ");
            put_line(pc, decode(word, next), page);
        }
        Kind::Enter { vector, back } => {
            page.push_str("enter ");
            put_hex4(vector, page);
            page.push_str(" ");
            put_hex4(back, page);
        }
        Kind::Serial { byte } => {
            page.push_str("serial ");
            put_hex2(byte, page);
        }
        Kind::Sent { byte } => {
            page.push_str("sent ");
            put_hex2(byte, page);
        }
        Kind::Heard { heard } => {
            page.push_str("heard ");
            put_decimal(heard.status, page);
            page.push_str(" ");
            put_hex2(heard.byte, page);
            page.push_str(" ");
            put_decimal(heard.age, page);
        }
        Kind::Stop { pc, cause } => {
            page.push_str("stop ");
            put_hex4(pc, page);
            page.push_str(" ");
            page.push_str(cause.text());
        }
        Kind::End {
            state,
            instructions,
        } => {
            page.push_str("end ");
            put_decimal(instructions, page);
            page.push_str(" ");
            page.push_str(name_of(state));
        }
    }
}

/// Appends the line of a row, its end included.
#[tactic(auto, unfolding(crate::specs::Line::row_line))]
pub fn put_row<const N: usize>(row: &Row, page: &mut ArrayString<N>)
    requires { array_string_len page.old + LINE ≤ N }
    ensures bytes { page.new.bytes ≡ page.old.bytes ++ row_line row.now }
    ensures len { array_string_len page.new ≤ array_string_len page.old + LINE }
{
    put_decimal(row.cycle, page);
    page.push_str(" ");
    put_decimal(row.node, page);
    page.push_str(" ");
    put_kind(row.kind, page);
    page.push_str("\n");
}
