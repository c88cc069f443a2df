// The interface: its clock, the transfer that runs and its end, and its interrupt.
ghost use Rattle.std.specs.Prelude.{◌≡◌, ◌≤◌, ◌%◌, false, true, is_some, Some};

use crate::transmission::{Transmission, byte_of, end_of};
use device_base::any_bit;
use device_base::names::SPIE;

/// The serial peripheral interface as a master (ATmega128 datasheet, "Serial Peripheral Interface - SPI").
#[derive(Clone, Copy)]
pub struct Spi {
    /// SPCR.
    pub control: u8,
    /// SPI2X: whether the speed is doubled.
    pub double: bool,
    /// The receive buffer: the byte that the last transfer brought, which a read of SPDR gives.
    pub receive_buffer: u8,
    /// SPIF: whether a transfer ended.
    pub spif: bool,
    /// WCOL: whether SPDR was written while a transfer ran.
    pub wcol: bool,
    /// Whether the last read of SPSR since an access of SPDR saw SPIF set.
    pub noted_spif: bool,
    /// Whether the last read of SPSR since an access of SPDR saw WCOL set.
    pub noted_wcol: bool,
    /// The shift register: the transfer that runs, eight bits out and eight bits in.
    pub shift_register: Option<Transmission>,
}

impl Spi {
    ghost use Rattle.serial_ports.specs.Transmission.{byte_of, end_of};
    ghost use Rattle.serial_ports.specs.Spi.{asks_interrupt, prescale, reset_spi, spi_finished, transfer_cycles};

    /// The interface after reset: disabled, with all registers and flags 0 and no transfer.
    pub fn new() -> Spi
        ensures { result ≡ reset_spi }
    {
        Spi {
            control: 0,
            double: false,
            receive_buffer: 0,
            spif: false,
            wcol: false,
            noted_spif: false,
            noted_wcol: false,
            shift_register: None,
        }
    }

    // What SPR1:0 divide the clock by.
    fn prescale(&self) -> u64
        ensures value { result ≡ prescale (self.now.control % 4) }
        ensures most { result ≤ 128 }
    {
        match self.control % 4 {
            0 => 4,
            1 => 16,
            2 => 64,
            _ => 128,
        }
    }

    // The cycles of a transfer: eight bits.
    #[tactic(auto, unfolding(crate::specs::Spi::transfer_cycles))]
    pub(crate) fn transfer_cycles(&self) -> u64
        ensures value { result ≡ transfer_cycles self.now }
        ensures most { result ≤ 1024 }
    {
        let divider = self.prescale();
        8 * if self.double { divider / 2 } else { divider }
    }

    /// The cycle in which the transfer that runs ends; `None` exactly where none runs.
    pub fn done_at(&self) -> Option<u64>
        ensures { result ≡ end_of self.now.shift_register }
    {
        end_of(self.shift_register)
    }

    /// The byte that the transfer that runs brings out; `None` exactly where none runs. For stored cases.
    pub fn sending(&self) -> Option<u8>
        ensures { result ≡ byte_of self.now.shift_register }
    {
        byte_of(self.shift_register)
    }

    /// Ends the transfer that runs, which brought the byte `miso`: SPDR reads it from now on, and SPIF is set. The
    /// result is the byte that went out.
    pub fn finish(&mut self, miso: u8) -> u8
        requires { is_some self.old.shift_register ≡ true }
        ensures sent { byte_of self.old.shift_register ≡ Some result }
        ensures ended { self.new ≡ spi_finished miso self.old }
    {
        match self.shift_register {
            Some(transfer) => {
                self.receive_buffer = miso;
                self.spif = true;
                self.shift_register = None;
                transfer.byte
            }
            None => unreachable!(),
        }
    }

    /// Whether it asks for its interrupt: SPIF is set, and SPIE.
    pub fn line(&self) -> bool
        ensures { result ≡ asks_interrupt self.now }
    {
        self.spif && any_bit(self.control, SPIE)
    }

    /// Clears SPIF, as entry to its vector does. Nothing else changes.
    pub fn clear_spif(&mut self)
        ensures { self.new ≡ record self.old { spif = false } }
    {
        self.spif = false;
    }
}
