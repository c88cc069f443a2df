//! An assembler for the ATmega128: from a source to the words of its program, or to the fault that decides.
#![tactic(auto)]

mod assembly;
mod fault;
mod line;
mod program;
mod source;

pub use assembly::assemble;
pub use fault::{AsmFault, LineFault};
