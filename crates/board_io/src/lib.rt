//! The board of a node: all I/O registers of the ATmega128 by data address, each with its rule, over the timers,
//! USART0, the serial peripheral interface and the radio; one cycle of these devices, or many at once; and the
//! interrupt lines.
#![tactic(auto)]

mod ahead;
mod board;
mod clock;
mod clocked;
mod copying;
mod cycle;
mod lagging;
mod lagging_registers;
mod lines;
mod names;
mod passing;
mod registers;
mod rules;
mod saved;

pub use board::{Board, Sleep};
pub use clock::Clock;
pub use clocked::ClockedBoard;
pub use cycle::{CycleOutput, OnAir};
pub use lagging::LaggingBoard;
pub use saved::first_refused;
