// The registers of the interface.
ghost use Rattle.std.specs.Prelude.{◌≡◌, ◌≤◌, Ok, Err, OnOk, OnErr, IfErr};
ghost use Rattle.air_base.specs.Bounds.{LAST_END};

use crate::{Spi, Transmission};
use avr_base::StopCause;
use device_base::names::{MSTR, SPE, SPI2X, SPIF, WCOL};
use device_base::{any_bit, bit};

/// The registers of the serial peripheral interface (ATmega128 datasheet, "SPI Control Register - SPCR", "SPI Status
/// Register - SPSR", "SPI Data Register - SPDR").
#[derive(Clone, Copy)]
pub enum SpiReg {
    /// SPCR.
    Control,
    /// SPSR.
    Status,
    /// SPDR.
    Spdr,
}

impl Spi {
    ghost use Rattle.serial_ports.specs.SpiRegisters.{accessed, get_of, put_of, sent_out, status_of};

    // What SPSR reads as.
    fn status(&self) -> u8
        ensures { result ≡ status_of self.now }
    {
        bit(self.spif, SPIF) + bit(self.wcol, WCOL) + bit(self.double, SPI2X)
    }

    // An access of SPDR: it clears the flags that the last read of SPSR saw set.
    fn access(&mut self)
        ensures { self.new ≡ accessed self.old }
    {
        self.spif = self.spif && !self.noted_spif;
        self.wcol = self.wcol && !self.noted_wcol;
        self.noted_spif = false;
        self.noted_wcol = false;
    }

    // Takes the byte `b` to transfer it from the cycle `cycle` on, where the interface is enabled and free.
    fn send_out(&mut self, cycle: u64, b: u8)
        requires { cycle ≤ LAST_END }
        ensures { self.new ≡ sent_out cycle b self.old }
    {
        if !any_bit(self.control, SPE) {
            return;
        }
        if self.shift_register.is_some() {
            self.wcol = true;
            return;
        }
        self.shift_register = Some(Transmission {
            ends: cycle + self.transfer_cycles(),
            byte: b,
        });
    }

    /// What the register `reg` reads as. A read of SPSR notes which of its flags are set, and a read of SPDR clears
    /// those that were noted.
    #[inline(always)]
    pub fn get(&mut self, reg: SpiReg) -> u8
        ensures { get_of self.old reg ≡ (result, self.new) }
    {
        match reg {
            SpiReg::Control => self.control,
            SpiReg::Status => {
                self.noted_spif = self.spif;
                self.noted_wcol = self.wcol;
                self.status()
            }
            SpiReg::Spdr => {
                self.access();
                self.receive_buffer
            }
        }
    }

    /// Writes the byte `b` to the register `reg` in the cycle `cycle`. A write of SPDR clears the flags that were
    /// noted, and then starts a transfer where the interface is enabled and free; it is lost where not, with WCOL set
    /// where a transfer runs. A write of SPCR that disables the interface abandons the transfer that runs. Of SPSR only
    /// SPI2X is written. It stops, and changes nothing, exactly where SPCR would make the interface a slave.
    #[inline(always)]
    pub fn put(&mut self, cycle: u64, reg: SpiReg, b: u8) -> Result<(), StopCause>
        requires { cycle ≤ LAST_END }
        ensures ok { OnOk result (put_of cycle self.old reg b ≡ Ok self.new) }
        ensures err { IfErr result (λ cause. put_of cycle self.old reg b ≡ Err cause) }
        ensures same { OnErr result (self.new ≡ self.old) }
    {
        match reg {
            SpiReg::Control => {
                if any_bit(b, SPE) && !any_bit(b, MSTR) {
                    return Err(StopCause::SpiSlave);
                }
                self.control = b;
                if !any_bit(b, SPE) {
                    self.shift_register = None;
                }
            }
            SpiReg::Status => self.double = any_bit(b, SPI2X),
            SpiReg::Spdr => {
                self.access();
                self.send_out(cycle, b);
            }
        }
        Ok(())
    }
}
