//! The serial ports of the ATmega128 that are simulated. USART0 as an asynchronous port (`usart`): frames, transmit and
//! receive buffers and registers, cycle by cycle, and the scripts of bytes that arrive at it (`script`). The serial
//! peripheral interface as a master, its registers, its flags and the transfer that runs; and the radio of a node
//! behind it, byte by byte: a device that takes one byte to send, or samples the air and answers what it heard in three
//! bytes. What answers a transfer is told to the interface from outside, at its end.
#![tactic(auto)]

mod in_order;
mod numbers;
mod radio;
mod radio_numbers;
mod script;
mod spi;
mod spi_numbers;
mod spi_registers;
mod stretch;
mod transmission;
mod usart;
mod usart_numbers;
mod usart_receive_buffer;
mod usart_registers;

pub use radio::{Radio, RadioState, TransferOutcome};
pub use script::Script;
pub use spi::Spi;
pub use spi_registers::SpiReg;
pub use stretch::{LONGEST_EVERY, MOST_ARRIVALS, Stretch};
pub use transmission::{Transmission, ended_byte};
pub use usart::{Usart, UsartLines};
pub use usart_receive_buffer::ReceiveBuffer;
pub use usart_registers::UsartReg;
