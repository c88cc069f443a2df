//! What every part of the simulated ATmega128 shares: register numbers, the bits of a byte, the flags byte SREG, the
//! interrupt lines and the one that is served, the causes that stop a node, and the answer to want of memory.
#![tactic(auto)]

mod address;
mod byte_bits;
mod interrupts;
mod memory;
mod reg;
mod sreg;
mod stop;

pub use address::IO_START;
pub use byte_bits::ByteBits;
pub use interrupts::{Lines, Vector, pending};
pub use memory::NoMemory;
pub use reg::Reg;
pub use sreg::Sreg;
pub use stop::StopCause;
