// The numbers of the port, by which it is saved and restored.
ghost use Rattle.std.specs.Prelude.{◌≡◌, true, Some, IfSome, is_some};
ghost use Rattle.serial_ports.specs.UsartNumbers.{are_numbers, first_number, receive_buffer_of, received, second_number, transmit_buffer_number, transmit_buffer_of};

use crate::numbers::{byte_number, end_number, is_end_number, owned, transmission_of};
use crate::{ReceiveBuffer, Usart};
use device_base::all_fit;

impl Usart {
    ghost use Rattle.serial_ports.specs.UsartNumbers.{fits, numbers_of};

    /// Its numbers: U2X, UCSR0B, UCSR0C, UBRR0, TXC, DOR, how many bytes were received, the first and the second of
    /// them, whether a frame runs, its end in cycles and its byte, whether a byte waits, and that byte. Flags are 0 or
    /// 1; what is not there is 0.
    pub fn numbers(&self) -> [u64; 14]
        ensures { result ≡ numbers_of self.now }
    {
        [
            u64::from(self.double),
            u64::from(self.control_b),
            u64::from(self.control_c),
            u64::from(self.baud),
            u64::from(self.txc),
            u64::from(self.dor),
            self.receive_buffer.received(),
            self.receive_buffer.first_number(),
            self.receive_buffer.second_number(),
            u64::from(self.shift_register.is_some()),
            end_number(self.shift_register),
            byte_number(self.shift_register),
            u64::from(self.transmit_buffer.is_some()),
            transmit_buffer_number(self.transmit_buffer),
        ]
    }

    /// A test for each of these `numbers`, whether it is within its bound for a port before the cycle `cycle`: UCSR0B
    /// is a byte as it reads, UCSR0C has four bits and UBRR0 twelve, at most two bytes were received, a frame ends from
    /// `cycle` to 2^41, and a byte waits only where a frame runs.
    #[tactic(auto, unfolding(crate::specs::UsartNumbers::fits))]
    pub fn fits(cycle: u64, numbers: &[u64; 14]) -> [bool; 14]
        ensures { result ≡ fits cycle numbers.now }
    {
        let [
            double,
            control_b,
            control_c,
            baud,
            txc,
            dor,
            received,
            first,
            second,
            runs,
            ends,
            byte,
            waits,
            next,
        ] = *numbers;
        [
            double <= 1,
            control_b <= 255 && control_b & 0x06 == 0,
            control_c <= 15,
            baud <= 4095,
            txc <= 1,
            dor <= 1,
            received <= 2,
            first <= owned(received >= 1, 255),
            second <= owned(received >= 2, 255),
            runs <= 1,
            is_end_number(cycle, runs == 1, ends),
            byte <= owned(runs == 1, 255),
            waits <= owned(runs == 1, 1),
            next <= owned(waits == 1, 255),
        ]
    }

    /// The port that has these `numbers`, in the order of `numbers`, before the cycle `cycle`. `None` exactly where one
    /// of them breaks its bound.
    pub fn from_numbers(cycle: u64, numbers: &[u64; 14]) -> Option<Usart>
        ensures none { is_some result ≡ are_numbers cycle numbers.now }
        ensures some { IfSome result (λ u. numbers_of u ≡ numbers.now) }
        ensures one { (u : Usart) → numbers_of u ≡ numbers.now → are_numbers cycle numbers.now ≡ true → result ≡ Some u }
    {
        if !are_numbers(cycle, numbers) {
            return None;
        }
        let [
            double,
            control_b,
            control_c,
            baud,
            txc,
            dor,
            received,
            first,
            second,
            runs,
            ends,
            byte,
            waits,
            next,
        ] = *numbers;
        let receive_buffer = receive_buffer_of(received, first as u8, second as u8);
        let shift_register = transmission_of(runs == 1, ends, byte as u8);
        let transmit_buffer = transmit_buffer_of(waits == 1, next as u8);
        Some(Usart {
            baud: baud as u16,
            double: double == 1,
            control_b: control_b as u8,
            control_c: control_c as u8,
            txc: txc == 1,
            dor: dor == 1,
            receive_buffer,
            shift_register,
            transmit_buffer,
        })
    }
}

impl ReceiveBuffer {
    // How many bytes it holds.
    fn received(self) -> u64
        ensures { result ≡ received self }
    {
        match self {
            ReceiveBuffer::Empty => 0,
            ReceiveBuffer::One { .. } => 1,
            ReceiveBuffer::Two { .. } => 2,
        }
    }

    // The older byte, 0 where there is none.
    fn first_number(self) -> u64
        ensures { result ≡ first_number self }
    {
        match self {
            ReceiveBuffer::Empty => 0,
            ReceiveBuffer::One { first } | ReceiveBuffer::Two { first, .. } => u64::from(first),
        }
    }

    // The younger byte of two, 0 where there is none.
    fn second_number(self) -> u64
        ensures { result ≡ second_number self }
    {
        match self {
            ReceiveBuffer::Empty | ReceiveBuffer::One { .. } => 0,
            ReceiveBuffer::Two { second, .. } => u64::from(second),
        }
    }
}

// The receive buffer of its numbers.
fn receive_buffer_of(received: u64, first: u8, second: u8) -> ReceiveBuffer
    ensures { result ≡ receive_buffer_of received first second }
{
    match received {
        0 => ReceiveBuffer::Empty,
        1 => ReceiveBuffer::One { first },
        _ => ReceiveBuffer::Two { first, second },
    }
}

// The byte that waits, 0 where none does.
fn transmit_buffer_number(transmit_buffer: Option<u8>) -> u64
    ensures { result ≡ transmit_buffer_number transmit_buffer }
{
    match transmit_buffer {
        Some(byte) => u64::from(byte),
        None => 0,
    }
}

// The byte that waits, of its numbers.
fn transmit_buffer_of(waits: bool, byte: u8) -> Option<u8>
    ensures { result ≡ transmit_buffer_of waits byte }
{
    if waits { Some(byte) } else { None }
}

// Whether each number is within its bound.
fn are_numbers(cycle: u64, numbers: &[u64; 14]) -> bool
    ensures { result ≡ are_numbers cycle numbers.now }
{
    all_fit(&Usart::fits(cycle, numbers))
}
