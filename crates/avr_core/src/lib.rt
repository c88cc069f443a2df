//! The instructions of the processor (AVR Instruction Set Manual), each over a core and any data space: what it does to
//! registers and flags, where the program goes on, its loads and stores, and how many cycles it takes. `execute_plain` is
//! the one table of all of them; the shapes that it calls stand beside it.
#![tactic(auto)]

mod accesses;
mod calls;
mod flash;
mod instructions;
mod jumps;
mod shapes;
mod sram;
mod sram_accesses;

pub use instructions::{After, Executed, execute, execute_plain, execute_waiting};
pub use sram::is_in_sram;
