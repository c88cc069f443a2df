//! One line of an assembler's source. What it says by itself: a label, an instruction or nothing, before any mnemonic
//! or operand is looked at. And the words of its instruction: its mnemonic and its operands, encoded by the fields of
//! its opcode (AVR Instruction Set Manual, the sections "Syntax" and "16-bit Opcode"). Reading a line is total and
//! takes no memory.
#![tactic(auto)]

mod field;
mod form;
mod instruction;
mod labels;
mod law;
mod line;
mod number;
mod opcodes;
mod operand;
mod table;
mod target;
mod text;

pub use instruction::{Piece, WordFault, encode};
pub use labels::{Label, add_label, find_label};
pub use law::alias_law;
pub use line::{Instruction, Line, Operands, read_line};
pub use opcodes::{is_known, width};
pub use text::is_label;
