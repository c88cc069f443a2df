// The numbers of the interface, by which it is saved and restored.
ghost use Rattle.std.specs.Prelude.{◌≡◌, true, Some, IfSome, is_some};
ghost use Rattle.serial_ports.specs.SpiNumbers.{are_numbers};

use crate::Spi;
use crate::numbers::{byte_number, end_number, is_end_number, owned, transmission_of};
use device_base::all_fit;

impl Spi {
    ghost use Rattle.serial_ports.specs.SpiNumbers.{fits, numbers_of};

    /// Its numbers: SPCR, SPI2X, the byte that SPDR reads, whether a transfer runs, its end in cycles and its byte,
    /// SPIF, WCOL, and whether SPIF and WCOL are noted. Flags are 0 or 1; without a transfer its end and its byte are
    /// 0.
    pub fn numbers(&self) -> [u64; 10]
        ensures { result ≡ numbers_of self.now }
    {
        [
            u64::from(self.control),
            u64::from(self.double),
            u64::from(self.receive_buffer),
            u64::from(self.shift_register.is_some()),
            end_number(self.shift_register),
            byte_number(self.shift_register),
            u64::from(self.spif),
            u64::from(self.wcol),
            u64::from(self.noted_spif),
            u64::from(self.noted_wcol),
        ]
    }

    /// A test for each of these `numbers`, whether it is within its bound for an interface before the cycle `cycle`:
    /// SPCR is a byte that `put` accepts, a transfer runs only with SPE, and ends from `cycle` to 2^41.
    #[tactic(auto, unfolding(crate::specs::SpiNumbers::fits))]
    pub fn fits(cycle: u64, numbers: &[u64; 10]) -> [bool; 10]
        ensures { result ≡ fits cycle numbers.now }
    {
        let [
            control,
            double,
            receive_buffer,
            runs,
            ends,
            byte,
            spif,
            wcol,
            noted_spif,
            noted_wcol,
        ] = *numbers;
        let enabled = control & 0x40 != 0;
        let slave = enabled && control & 0x10 == 0;
        [
            control <= 255 && !slave,
            double <= 1,
            receive_buffer <= 255,
            runs <= owned(enabled, 1),
            is_end_number(cycle, runs == 1, ends),
            byte <= owned(runs == 1, 255),
            spif <= 1,
            wcol <= 1,
            noted_spif <= 1,
            noted_wcol <= 1,
        ]
    }

    /// The interface that has these `numbers`, in the order of `numbers`, before the cycle `cycle`. `None` exactly
    /// where one of them breaks its bound.
    pub fn from_numbers(cycle: u64, numbers: &[u64; 10]) -> Option<Spi>
        ensures none { is_some result ≡ are_numbers cycle numbers.now }
        ensures some { IfSome result (λ s. numbers_of s ≡ numbers.now) }
        ensures one { (s : Spi) → numbers_of s ≡ numbers.now → are_numbers cycle numbers.now ≡ true → result ≡ Some s }
    {
        if !are_numbers(cycle, numbers) {
            return None;
        }
        let [
            control,
            double,
            receive_buffer,
            runs,
            ends,
            byte,
            spif,
            wcol,
            noted_spif,
            noted_wcol,
        ] = *numbers;
        Some(Spi {
            control: control as u8,
            double: double == 1,
            receive_buffer: receive_buffer as u8,
            spif: spif == 1,
            wcol: wcol == 1,
            noted_spif: noted_spif == 1,
            noted_wcol: noted_wcol == 1,
            shift_register: transmission_of(runs == 1, ends, byte as u8),
        })
    }
}

// Whether each number is within its bound.
fn are_numbers(cycle: u64, numbers: &[u64; 10]) -> bool
    ensures { result ≡ are_numbers cycle numbers.now }
{
    all_fit(&Spi::fits(cycle, numbers))
}
