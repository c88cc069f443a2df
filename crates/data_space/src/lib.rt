//! The data space of the ATmega128 as its processor sees it: the core's registers, the internal SRAM, the bus on which
//! everything but the core lies, loads, stores, pushes and pops over both, and what an instruction reports when it is
//! done.
#![tactic(auto)]

mod access;
mod bus;
mod cpu;
mod regions;
mod sram;

pub use access::{load, pop, pop_word, push, push_both, push_word, store};
pub use bus::{Bus, Done};
pub use cpu::{Core, Cpu, Registers, pair, reg, set_pair, set_reg};
pub use regions::{IO_COUNT, SRAM_LAST, SRAM_LEN, SRAM_START};
pub use sram::Sram;
