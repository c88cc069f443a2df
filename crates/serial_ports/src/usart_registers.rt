// The registers of the port.
ghost use Rattle.std.specs.Prelude.{◌≡◌, ◌≤◌, false, Ok, Err, OnOk, OnErr, IfErr};
ghost use Rattle.air_base.specs.Bounds.{LAST_END};

use crate::{ReceiveBuffer, Usart};
use avr_base::StopCause;
use device_base::names::{
    DOR0, MPCM0, RXC0, RXEN0, TXC0, TXEN0, U2X0, UCSR0B_KEPT, UCSR0C_KEPT, UCSZ02, UDRE0,
    UMSEL0_UPM0,
};
use device_base::{any_bit, bit};

/// The registers of USART0 (ATmega128 datasheet, "USART Register Description").
#[derive(Clone, Copy)]
pub enum UsartReg {
    /// UCSR0A.
    StatusA,
    /// UCSR0B.
    ControlB,
    /// UCSR0C.
    ControlC,
    /// UBRR0L.
    BaudL,
    /// UBRR0H.
    BaudH,
    /// UDR0.
    Udr,
}

impl Usart {
    ghost use Rattle.serial_ports.specs.UsartRegisters.{get_of, oldest, put_of, sent_out, status_of, with_control_b, without_oldest};

    // What UCSR0A reads as.
    fn status(&self) -> u8
        ensures { result ≡ status_of self.now }
    {
        bit(self.receive_buffer.is_filled(), RXC0)
            + bit(self.txc, TXC0)
            + bit(self.transmit_buffer.is_none(), UDRE0)
            + bit(self.dor, DOR0)
            + bit(self.double, U2X0)
    }

    // Takes the oldest byte that was received, 0 where there is none.
    fn take(&mut self) -> u8
        ensures byte { result ≡ oldest self.old.receive_buffer }
        ensures rest { self.new ≡ record self.old { receive_buffer = without_oldest self.old.receive_buffer; dor = false } }
    {
        let byte = self.receive_buffer.oldest();
        self.receive_buffer = self.receive_buffer.without_oldest();
        self.dor = false;
        byte
    }

    /// What the register `reg` reads as. A read of UDR0 takes the oldest byte that was received, 0 where there is none,
    /// and clears DOR; no other read changes anything.
    pub fn get(&mut self, reg: UsartReg) -> u8
        ensures { get_of self.old reg ≡ (result, self.new) }
    {
        match reg {
            UsartReg::StatusA => self.status(),
            UsartReg::ControlB => self.control_b,
            UsartReg::ControlC => self.control_c,
            UsartReg::BaudL => (self.baud % 256) as u8,
            UsartReg::BaudH => (self.baud / 256) as u8,
            UsartReg::Udr => self.take(),
        }
    }

    // Sends a byte from a cycle on: it begins its frame, or waits for the frame that runs, or is lost.
    fn send(&mut self, cycle: u64, byte: u8)
        requires { cycle ≤ LAST_END }
        ensures { self.new ≡ sent_out cycle byte self.old }
    {
        if !any_bit(self.control_b, TXEN0) {
            return;
        }
        if self.shift_register.is_none() {
            self.start(cycle, byte);
        } else if self.transmit_buffer.is_none() {
            self.transmit_buffer = Some(byte);
        }
    }

    // Puts UCSR0B; without RXEN the receive buffer is emptied.
    fn put_control_b(&mut self, b: u8)
        ensures { self.new ≡ with_control_b b self.old }
    {
        self.control_b = b & UCSR0B_KEPT;
        if !any_bit(b, RXEN0) {
            self.receive_buffer = ReceiveBuffer::Empty;
            self.dor = false;
        }
    }

    /// Writes the byte `b` to the register `reg` in `cycle`, which is at most 2^41. A byte written to UDR0 is sent:
    /// with TXEN set its frame begins in this cycle, or waits for the end of the one that runs, or is lost where
    /// another byte waits. It stops, with [`StopCause::UsartMode`] and nothing changed, exactly where the byte asks for
    /// multi-processor mode, nine data bits, synchronous mode or parity.
    pub fn put(&mut self, cycle: u64, reg: UsartReg, b: u8) -> Result<(), StopCause>
        requires { cycle ≤ LAST_END }
        ensures ok { OnOk result (put_of cycle self.old reg b ≡ Ok self.new) }
        ensures err { IfErr result (λ cause. put_of cycle self.old reg b ≡ Err cause) }
        ensures same { OnErr result (self.new ≡ self.old) }
    {
        match reg {
            UsartReg::StatusA => {
                if any_bit(b, MPCM0) {
                    return Err(StopCause::UsartMode);
                }
                self.double = any_bit(b, U2X0);
                self.txc = self.txc && !any_bit(b, TXC0);
            }
            UsartReg::ControlB => {
                if any_bit(b, UCSZ02) {
                    return Err(StopCause::UsartMode);
                }
                self.put_control_b(b);
            }
            UsartReg::ControlC => {
                if any_bit(b, UMSEL0_UPM0) {
                    return Err(StopCause::UsartMode);
                }
                self.control_c = b & UCSR0C_KEPT;
            }
            UsartReg::BaudL => self.baud = self.baud / 256 * 256 + u16::from(b),
            UsartReg::BaudH => self.baud = u16::from(b % 16) * 256 + self.baud % 256,
            UsartReg::Udr => self.send(cycle, b),
        }
        Ok(())
    }
}
