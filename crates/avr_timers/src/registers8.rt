// The registers of a timer.
ghost use Rattle.std.specs.Prelude.{◌≡◌, ◌≤◌, ◌+◌, ◌<◌, ℕ, false, Ok, Err, OnOk, OnErr, IfErr};
ghost use Rattle.air_base.specs.Bounds.{LAST_END};

use crate::Timer8;
use avr_base::StopCause;
use device_base::names::{COM, FOC, WGM0, WGM1};
use device_base::{any_bit, bit};

/// The registers of a timer (ATmega128 datasheet, "8-bit Timer/Counter Register Description").
#[derive(Clone, Copy)]
pub enum Reg8 {
    /// TCCR.
    Control,
    /// TCNT.
    Count,
    /// OCR.
    Compare,
}

impl Timer8 {
    ghost use Rattle.avr_timers.specs.Clock.{cycles};
    ghost use Rattle.avr_timers.specs.Timer8.{sets_flag_at, timer_cycle};
    ghost use Rattle.avr_timers.specs.Registers8.{get_of, put_of};

    /// What the register `reg` reads as.
    pub fn get(&self, reg: Reg8) -> u8
        ensures { result ≡ get_of self.now reg }
    {
        match reg {
            Reg8::Control => bit(self.ctc, WGM1) | self.select,
            Reg8::Count => self.count,
            Reg8::Compare => self.compare,
        }
    }

    /// What the register `reg` reads as after the `n` cycles from `cycle` on, of which the timer is not told, and none
    /// of which sets a flag.
    #[inline(always)]
    #[tactic(auto, using(crate::proofs::Later8::get_control, crate::proofs::Later8::get_compare))]
    pub fn get_calm(&self, cycle: u64, n: u64, reg: Reg8) -> u8
        requires early { cycle + n ≤ LAST_END }
        requires calm { (i : ℕ) → i < n → sets_flag_at cycle self.now i ≡ false }
        ensures { result ≡ get_of (cycles timer_cycle cycle n self.now) reg }
    {
        match reg {
            Reg8::Count => self.count_calm(cycle, n),
            Reg8::Control | Reg8::Compare => self.get(reg),
        }
    }

    /// Writes the byte `b` to the register `reg`. A write of TCNT blocks the next compare match. It stops, and changes
    /// nothing, exactly where the byte asks for what is not simulated, looked for in this order: a forced compare
    /// match, a PWM mode, a pin driven by a compare match, a clock from a pin.
    pub fn put(&mut self, reg: Reg8, b: u8) -> Result<(), StopCause>
        ensures ok { OnOk result (put_of self.old reg b ≡ Ok self.new) }
        ensures err { IfErr result (λ cause. put_of self.old reg b ≡ Err cause) }
        ensures same { OnErr result (self.new ≡ self.old) }
    {
        match reg {
            Reg8::Control => {
                if any_bit(b, FOC) {
                    return Err(StopCause::ForcedCompare);
                }
                if any_bit(b, WGM0) {
                    return Err(StopCause::PwmMode);
                }
                if any_bit(b, COM) {
                    return Err(StopCause::CompareOutput);
                }
                if self.prescaler.is_pin(b % 8) {
                    return Err(StopCause::ExternalTimerClock);
                }
                self.ctc = any_bit(b, WGM1);
                self.select = b % 8;
            }
            Reg8::Count => {
                self.count = b;
                self.match_blocked = true;
            }
            Reg8::Compare => self.compare = b,
        }
        Ok(())
    }
}
