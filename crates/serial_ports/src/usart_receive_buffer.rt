// The receive buffer.
ghost use Rattle.std.specs.Prelude.{◌≡◌};
ghost use Rattle.serial_ports.specs.UsartRegisters.{oldest, without_oldest};
ghost use Rattle.serial_ports.specs.Usart.{is_filled};

/// The receive buffer of USART0 (ATmega128 datasheet, "Data Reception - The USART Receiver"): up to two bytes that a
/// read of UDR0 has not given yet.
#[derive(Clone, Copy, PartialEq, Eq)]
pub enum ReceiveBuffer {
    /// No byte.
    Empty,
    /// One byte.
    One { first: u8 },
    /// Two bytes, the older one first.
    Two { first: u8, second: u8 },
}

impl ReceiveBuffer {
    // Whether it holds a byte.
    pub(super) fn is_filled(self) -> bool
        ensures { result ≡ is_filled self }
    {
        !matches!(self, ReceiveBuffer::Empty)
    }

    // The oldest byte, 0 where there is none.
    pub(super) fn oldest(self) -> u8
        ensures { result ≡ oldest self }
    {
        match self {
            ReceiveBuffer::Empty => 0,
            ReceiveBuffer::One { first } | ReceiveBuffer::Two { first, .. } => first,
        }
    }

    // The buffer after its oldest byte was taken.
    pub(super) fn without_oldest(self) -> ReceiveBuffer
        ensures { result ≡ without_oldest self }
    {
        match self {
            ReceiveBuffer::Empty | ReceiveBuffer::One { .. } => ReceiveBuffer::Empty,
            ReceiveBuffer::Two { second, .. } => ReceiveBuffer::One { first: second },
        }
    }
}
