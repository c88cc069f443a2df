// A byte that is shifted out.
ghost use Rattle.std.specs.Prelude.{◌≡◌, true, is_some, IfSome};
ghost use Rattle.serial_ports.specs.Transmission.{byte_of, end_of, ended_byte};

/// A byte that is shifted out: a frame of USART0, or a transfer of the serial peripheral interface.
#[derive(Clone, Copy, PartialEq, Eq)]
pub struct Transmission {
    /// The cycle in which it ends.
    pub ends: u64,
    /// The byte, as it goes out.
    pub byte: u8,
}

/// The cycle in which the transmission that runs ends; `None` exactly where none runs.
#[inline]
pub fn end_of(running: Option<Transmission>) -> Option<u64>
    ensures { result ≡ end_of running }
{
    match running {
        Some(transmission) => Some(transmission.ends),
        None => None,
    }
}

/// The byte of the transmission that runs; `None` exactly where none runs.
#[inline]
pub fn byte_of(running: Option<Transmission>) -> Option<u8>
    ensures { result ≡ byte_of running }
{
    match running {
        Some(transmission) => Some(transmission.byte),
        None => None,
    }
}

/// The byte of the transmission that ends in the cycle `cycle`; `None` where none does.
#[inline]
pub fn ended_byte(running: Option<Transmission>, cycle: u64) -> Option<u8>
    ensures value { result ≡ ended_byte running cycle }
    ensures runs { IfSome result (λ _. is_some running ≡ true) }
{
    match running {
        Some(transmission) if transmission.ends == cycle => Some(transmission.byte),
        _ => None,
    }
}
