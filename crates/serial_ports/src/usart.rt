// The port, cycle by cycle.
ghost use Rattle.std.specs.Prelude.{◌≡◌, ◌≤◌, ◌^◌, ◌↔◌, false, None};
ghost use Rattle.air_base.specs.Bounds.{LAST_END};

use crate::ReceiveBuffer;
use crate::transmission::{Transmission, end_of};
use device_base::any_bit;
use device_base::names::{RXCIE0, RXEN0, TXCIE0, UCSZ0, UDRIE0, USBS0};

/// USART0 as an asynchronous port (ATmega128 datasheet, "USART"). The cycles in which a frame begins and ends are this
/// simulator's own choice: it begins in the cycle of the write of UDR0, or in the one that ends the frame before it.
#[derive(Clone, Copy, PartialEq, Eq)]
pub struct Usart {
    /// UBRR0, 0 to 4,095.
    pub baud: u16,
    /// U2X: whether a bit lasts half as long.
    pub double: bool,
    /// UCSR0B as it reads.
    pub control_b: u8,
    /// UCSR0C as it reads: the stop bits in bit 3, the data bits in bits 2 and 1.
    pub control_c: u8,
    /// TXC: a frame ended and no byte waited.
    pub txc: bool,
    /// DOR: a received byte was lost, since the receive buffer was full.
    pub dor: bool,
    /// The receive buffer: the bytes that a read of UDR0 gives.
    pub receive_buffer: ReceiveBuffer,
    /// The transmit shift register: the frame that is sent, with its byte cut to the data bits.
    pub shift_register: Option<Transmission>,
    /// The transmit buffer: the byte written to UDR0 that waits until the shift register is free; UDRE is set where
    /// there is none.
    pub transmit_buffer: Option<u8>,
}

/// The lines of the port's three interrupts: a field is true where its flag is set and its interrupt is enabled.
#[derive(Clone, Copy)]
pub struct UsartLines {
    /// RXC and RXCIE.
    pub rxc: bool,
    /// UDRE and UDRIE.
    pub udre: bool,
    /// TXC and TXCIE.
    pub txc: bool,
}

impl Usart {
    ghost use Rattle.serial_ports.specs.Transmission.{end_of};
    ghost use Rattle.serial_ports.specs.Usart.{arrived, bit_cycles, buffered, cut, data_bits, ends_at, frame_cycles, frame_ended, lines_of, next_frame, reset_usart, started, usart_cycle};

    /// The port after reset: eight data bits and one stop bit, nothing enabled, and all buffers empty.
    pub fn new() -> Usart
        ensures { result ≡ reset_usart }
    {
        Usart {
            baud: 0,
            double: false,
            control_b: 0,
            control_c: UCSZ0,
            txc: false,
            dor: false,
            receive_buffer: ReceiveBuffer::Empty,
            shift_register: None,
            transmit_buffer: None,
        }
    }

    // The data bits of a frame.
    fn data_bits(&self) -> u8
        ensures value { result ≡ data_bits self.now }
        ensures most { result ≤ 8 }
    {
        5 + self.control_c / 2 % 4
    }

    // How many cycles a bit lasts.
    fn bit_cycles(&self) -> u64
        ensures value { result ≡ bit_cycles self.now }
        ensures most { result ≤ 2 ^ 20 }
    {
        let steps = if self.double { 8 } else { 16 };
        steps * (u64::from(self.baud) + 1)
    }

    // How many cycles a frame lasts: a start bit, the data bits and the stop bits.
    #[tactic(auto, unfolding(crate::specs::Usart::frame_cycles))]
    fn frame_cycles(&self) -> u64
        ensures value { result ≡ frame_cycles self.now }
        ensures most { result ≤ 2 ^ 24 }
    {
        let stop_bits = if any_bit(self.control_c, USBS0) { 2 } else { 1 };
        (1 + u64::from(self.data_bits()) + stop_bits) * self.bit_cycles()
    }

    // A byte cut to the data bits.
    #[tactic(auto, unfolding(crate::specs::Usart::cut))]
    fn cut(&self, byte: u8) -> u8
        ensures { result ≡ cut self.now byte }
    {
        match self.data_bits() {
            5 => byte % 32,
            6 => byte % 64,
            7 => byte % 128,
            _ => byte,
        }
    }

    // Begins the frame of a byte in a cycle.
    pub(super) fn start(&mut self, cycle: u64, byte: u8)
        requires { cycle ≤ LAST_END }
        ensures { self.new ≡ started cycle byte self.old }
    {
        self.shift_register = Some(Transmission {
            ends: cycle + self.frame_cycles(),
            byte: self.cut(byte),
        });
    }

    // Puts a byte into the receive buffer, or sets DOR.
    fn buffer(&mut self, byte: u8)
        ensures { self.new ≡ buffered self.old.receive_buffer byte self.old }
    {
        match self.receive_buffer {
            ReceiveBuffer::Empty => self.receive_buffer = ReceiveBuffer::One { first: byte },
            ReceiveBuffer::One { first } => {
                self.receive_buffer = ReceiveBuffer::Two {
                    first,
                    second: byte,
                }
            }
            ReceiveBuffer::Two { .. } => self.dor = true,
        }
    }

    /// A byte arrives from outside, cut to the data bits. It is lost where RXEN is clear; where the receive buffer
    /// holds two bytes already it is lost and DOR is set.
    #[tactic(auto, unfolding(crate::specs::Usart::arrived))]
    pub fn arrive(&mut self, byte: u8)
        ensures { self.new ≡ arrived byte self.old }
    {
        if any_bit(self.control_b, RXEN0) {
            let cut = self.cut(byte);
            self.buffer(cut);
        }
    }

    // What follows the end of a frame: that of the byte in the transmit buffer, or TXC.
    fn next_frame(&mut self, cycle: u64)
        requires { cycle ≤ LAST_END }
        ensures { self.new ≡ next_frame cycle self.old.transmit_buffer self.old }
    {
        match self.transmit_buffer {
            Some(byte) => {
                self.transmit_buffer = None;
                self.start(cycle, byte);
            }
            None => {
                self.shift_register = None;
                self.txc = true;
            }
        }
    }

    /// One cycle of the transmitter, with the number `cycle`: the byte whose frame ends in it, `None` exactly where
    /// none ends. The byte that waits then begins its frame; where none waits, TXC is set.
    #[tactic(auto, unfolding(crate::specs::Usart::frame_ended, crate::specs::Usart::usart_cycle))]
    pub fn tick(&mut self, cycle: u64) -> Option<u8>
        requires { cycle ≤ LAST_END }
        ensures value { result ≡ frame_ended cycle self.old }
        ensures state { self.new ≡ usart_cycle cycle self.old }
        ensures none { (result ≡ None) ↔ (ends_at cycle self.old ≡ false) }
    {
        match self.shift_register {
            Some(frame) if frame.ends == cycle => {
                self.next_frame(cycle);
                Some(frame.byte)
            }
            _ => None,
        }
    }

    /// The cycle in which the running frame ends, `None` exactly where none runs.
    pub fn next_event(&self) -> Option<u64>
        ensures { result ≡ end_of self.now.shift_register }
    {
        end_of(self.shift_register)
    }

    /// The lines of its three interrupts.
    pub fn lines(&self) -> UsartLines
        ensures { result ≡ lines_of self.now }
    {
        UsartLines {
            rxc: self.receive_buffer.is_filled() && any_bit(self.control_b, RXCIE0),
            udre: self.transmit_buffer.is_none() && any_bit(self.control_b, UDRIE0),
            txc: self.txc && any_bit(self.control_b, TXCIE0),
        }
    }

    /// Clears TXC. Nothing else changes.
    pub fn clear_txc(&mut self)
        ensures { self.new ≡ record self.old { txc = false } }
    {
        self.txc = false;
    }
}
