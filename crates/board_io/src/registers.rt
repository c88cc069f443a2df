// The I/O registers, each by its rule.
ghost use Rattle.std.specs.Prelude.{ℕ, ◌≡◌};

use crate::names::{
    ICF1, ICF3, IVSEL, JTD, OCF0, OCF1A, OCF1B, OCF1C, OCF2, OCF3A, OCF3B, OCF3C, SRE, TOV0, TOV1,
    TOV2, TOV3, WDCE, WDE,
};
use crate::rules::Rule;
use crate::{Board, Clock};
use avr_base::StopCause;
use avr_timers::TimerFlags;
use device_base::{any_bit, bit};
use serial_ports::{SpiReg, UsartReg};

// The reset flags of MCUCSR.
const RESET_FLAGS: u8 = 0x1F;

/// The bits of MCUCR that are kept: SE, the sleep mode, and SRW10 of the external memory.
pub(crate) const MCUCR_KEPT: u8 = 0x7C;

impl Board {
    ghost use Rattle.board_io.specs.Board.{with_kept};
    ghost use Rattle.board_io.specs.Registers.{IsGot, IsPut, extended_flags_cleared, extended_timer_flags, flags_cleared, get_by, put_by, timer_flags};

    // TIFR as it reads.
    fn timer_flags(&self) -> u8
        ensures { result ≡ timer_flags self.now }
    {
        bit(self.t2.ocf_a, OCF2)
            + bit(self.t2.tov, TOV2)
            + bit(self.t1.flags.icf, ICF1)
            + bit(self.t1.flags.ocf_a, OCF1A)
            + bit(self.t1.flags.ocf_b, OCF1B)
            + bit(self.t1.flags.tov, TOV1)
            + bit(self.t0.ocf_a, OCF0)
            + bit(self.t0.tov, TOV0)
    }

    // ETIFR as it reads.
    fn extended_timer_flags(&self) -> u8
        ensures { result ≡ extended_timer_flags self.now }
    {
        bit(self.t3.flags.icf, ICF3)
            + bit(self.t3.flags.ocf_a, OCF3A)
            + bit(self.t3.flags.ocf_b, OCF3B)
            + bit(self.t3.flags.tov, TOV3)
            + bit(self.t3.flags.ocf_c, OCF3C)
            + bit(self.t1.flags.ocf_c, OCF1C)
    }

    // A write of TIFR.
    fn clear_flags(&mut self, x: u8)
        ensures { self.new ≡ flags_cleared x self.old }
    {
        self.t0.clear(TimerFlags {
            tov: any_bit(x, TOV0),
            ocf_a: any_bit(x, OCF0),
            ocf_b: false,
            ocf_c: false,
            icf: false,
        });
        self.t1.clear(TimerFlags {
            tov: any_bit(x, TOV1),
            ocf_a: any_bit(x, OCF1A),
            ocf_b: any_bit(x, OCF1B),
            ocf_c: false,
            icf: any_bit(x, ICF1),
        });
        self.t2.clear(TimerFlags {
            tov: any_bit(x, TOV2),
            ocf_a: any_bit(x, OCF2),
            ocf_b: false,
            ocf_c: false,
            icf: false,
        });
    }

    // A write of ETIFR.
    fn clear_extended_flags(&mut self, x: u8)
        ensures { self.new ≡ extended_flags_cleared x self.old }
    {
        self.t1.clear(TimerFlags {
            tov: false,
            ocf_a: false,
            ocf_b: false,
            ocf_c: any_bit(x, OCF1C),
            icf: false,
        });
        self.t3.clear(TimerFlags {
            tov: any_bit(x, TOV3),
            ocf_a: any_bit(x, OCF3A),
            ocf_b: any_bit(x, OCF3B),
            ocf_c: any_bit(x, OCF3C),
            icf: any_bit(x, ICF3),
        });
    }

    /// A read of the register at a data address below 0x0100, by its rule.
    #[inline(always)]
    pub(crate) fn get_by(&mut self, rule: Rule, at: u8) -> Result<u8, StopCause>
        ensures { IsGot (get_by rule self.old at) self.old result self.new }
    {
        match rule {
            Rule::Reserved => Err(StopCause::ReservedAddress),
            Rule::Pin(port) => Ok(self.kept(port)),
            Rule::Kept(_) | Rule::Guarded(..) | Rule::ResetFlags | Rule::CpuControl => {
                Ok(self.kept(at))
            }
            Rule::WatchdogControl => Ok(0),
            Rule::TimerFlags => Ok(self.timer_flags()),
            Rule::ExtendedTimerFlags => Ok(self.extended_timer_flags()),
            Rule::Timer0(reg) => Ok(self.t0.get(reg)),
            Rule::Timer1(reg) => Ok(self.t1.get(reg)),
            Rule::Timer2(reg) => Ok(self.t2.get(reg)),
            Rule::Timer3(reg) => Ok(self.t3.get(reg)),
            Rule::Usart0(reg) => Ok(self.usart.get(reg)),
            Rule::Spi(reg) => Ok(self.spi.get(reg)),
        }
    }

    // Keeps a byte in a register that no device has.
    pub(crate) fn keep(&mut self, at: u8, x: u8)
        ensures { self.new ≡ with_kept at x self.old }
    {
        self.kept[usize::from(at)] = x;
    }

    // A write of a register that no device has: it stops where one of the bits is written 1.
    fn put_guarded(
        &mut self,
        at: u8,
        x: u8,
        bits: u8,
        cause: StopCause,
        mask: u8,
    ) -> Result<(), StopCause>
        ensures { (t : ℕ) → IsPut (put_by t (Rule.Guarded bits cause mask) self.old at x) self.old result self.new }
    {
        if any_bit(x, bits) {
            return Err(cause);
        }
        self.keep(at, x & mask);
        Ok(())
    }

    // A write of MCUCR.
    fn put_cpu_control(&mut self, at: u8, x: u8) -> Result<(), StopCause>
        ensures { (t : ℕ) → IsPut (put_by t Rule.CpuControl self.old at x) self.old result self.new }
    {
        if any_bit(x, SRE) {
            return Err(StopCause::ExternalMemory);
        }
        if any_bit(x, IVSEL) {
            return Err(StopCause::MovedVectors);
        }
        self.keep(at, x & MCUCR_KEPT);
        Ok(())
    }

    /// A write of SPDR in the cycle of the clock.
    #[inline(always)]
    pub(crate) fn put_spdr(&mut self, clock: Clock, at: u8, x: u8) -> Result<(), StopCause>
        ensures { IsPut (put_by clock (Rule.Spi SpiReg.Spdr) self.old at x) self.old result self.new }
    {
        self.spi.put(clock.get(), SpiReg::Spdr, x)
    }

    /// A write of UDR0 in the cycle of the clock.
    #[inline(always)]
    pub(crate) fn put_udr(&mut self, clock: Clock, at: u8, x: u8) -> Result<(), StopCause>
        ensures { IsPut (put_by clock (Rule.Usart0 UsartReg.Udr) self.old at x) self.old result self.new }
    {
        self.usart.put(clock.get(), UsartReg::Udr, x)
    }

    /// A write, in the cycle of the clock, of the register at a data address below 0x0100, by its rule.
    pub(crate) fn put_by(
        &mut self,
        clock: Clock,
        rule: Rule,
        at: u8,
        x: u8,
    ) -> Result<(), StopCause>
        ensures { IsPut (put_by clock rule self.old at x) self.old result self.new }
    {
        match rule {
            Rule::Reserved => Err(StopCause::ReservedAddress),
            Rule::Pin(_) => Ok(()),
            Rule::Kept(mask) => {
                self.keep(at, x & mask);
                Ok(())
            }
            Rule::Guarded(bits, cause, mask) => self.put_guarded(at, x, bits, cause, mask),
            Rule::WatchdogControl => {
                if any_bit(x, WDE) && !any_bit(x, WDCE) {
                    return Err(StopCause::Watchdog);
                }
                Ok(())
            }
            Rule::ResetFlags => {
                let old = self.kept(at);
                self.keep(at, (x & JTD) | (old & x & RESET_FLAGS));
                Ok(())
            }
            Rule::CpuControl => self.put_cpu_control(at, x),
            Rule::TimerFlags => {
                self.clear_flags(x);
                Ok(())
            }
            Rule::ExtendedTimerFlags => {
                self.clear_extended_flags(x);
                Ok(())
            }
            Rule::Timer0(reg) => self.t0.put(reg, x),
            Rule::Timer1(reg) => self.t1.put(reg, x),
            Rule::Timer2(reg) => self.t2.put(reg, x),
            Rule::Timer3(reg) => self.t3.put(reg, x),
            Rule::Usart0(reg) => self.usart.put(clock.get(), reg, x),
            Rule::Spi(reg) => self.spi.put(clock.get(), reg, x),
        }
    }
}
