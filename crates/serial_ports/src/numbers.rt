// Numbers by which a port is saved and restored.
ghost use Rattle.std.specs.Prelude.{◌≡◌};
ghost use Rattle.serial_ports.specs.Numbers.{byte_number, end_number, is_end_number, owned, transmission_of};

use crate::Transmission;
use air_base::LAST_END;

// The bound of a number, 0 where its owner is not there.
#[inline]
pub(crate) fn owned(there: bool, most: u64) -> u64
    ensures { result ≡ owned there most }
{
    if there { most } else { 0 }
}

// Whether a number is the end of the transmission that runs from `cycle` on, or 0 where none runs.
pub(crate) fn is_end_number(cycle: u64, runs: bool, n: u64) -> bool
    ensures { result ≡ is_end_number cycle runs n }
{
    if runs {
        cycle <= n && n <= LAST_END
    } else {
        n == 0
    }
}

// The end of a transmission, 0 where none runs.
pub(crate) fn end_number(transmission: Option<Transmission>) -> u64
    ensures { result ≡ end_number transmission }
{
    match transmission {
        Some(transmission) => transmission.ends,
        None => 0,
    }
}

// The byte of a transmission, 0 where none runs.
pub(crate) fn byte_number(transmission: Option<Transmission>) -> u64
    ensures { result ≡ byte_number transmission }
{
    match transmission {
        Some(transmission) => u64::from(transmission.byte),
        None => 0,
    }
}

// The transmission of its numbers.
pub(crate) fn transmission_of(runs: bool, ends: u64, byte: u8) -> Option<Transmission>
    ensures { result ≡ transmission_of runs ends byte }
{
    if runs {
        Some(Transmission { ends, byte })
    } else {
        None
    }
}
