// The registers of a timer.
ghost use Rattle.std.specs.Prelude.{◌≡◌, ◌≤◌, ◌+◌, ◌/◌, ◌%◌, ◌<◌, ℕ, false, Ok, Err, OnOk, OnErr, IfErr};
ghost use Rattle.air_base.specs.Bounds.{LAST_END};

use crate::{Mode16, Prescaler, Timer16};
use avr_base::StopCause;
use device_base::names::{COM_ABC, FOC_ABC, ICES, ICNC};
use device_base::{any_bit, bit};

/// The channel of a compare value.
#[derive(Clone, Copy)]
pub enum Channel {
    /// OCRA, the top in mode 4.
    A,
    /// OCRB.
    B,
    /// OCRC.
    C,
}

/// The bytes of a timer's registers (ATmega128 datasheet, "16-bit Timer/Counter Register Description").
#[derive(Clone, Copy)]
pub enum Reg16 {
    /// TCCRA.
    ControlA,
    /// TCCRB.
    ControlB,
    /// TCCRC.
    ControlC,
    /// The low byte of TCNT.
    CountL,
    /// The high byte of TCNT.
    CountH,
    /// The low byte of ICR.
    IcrL,
    /// The high byte of ICR.
    IcrH,
    /// The low byte of a compare value.
    CompL(Channel),
    /// The high byte of a compare value.
    CompH(Channel),
}

impl Timer16 {
    ghost use Rattle.avr_timers.specs.Clock.{cycles};
    ghost use Rattle.avr_timers.specs.Timer16.{sets_flag_at, timer_cycle};
    ghost use Rattle.avr_timers.specs.Registers16.{compare_of, control_b, get_of, put_of, with_compare, word_with};

    // The word that a write of a low byte makes with TEMP.
    fn word_with(&self, low: u8) -> u16
        ensures { result ≡ word_with self.now low }
    {
        u16::from(self.temp) * 256 + u16::from(low)
    }

    // The compare value of a channel.
    fn compare(&self, chan: Channel) -> u16
        ensures { result ≡ compare_of self.now chan }
    {
        match chan {
            Channel::A => self.compare_a,
            Channel::B => self.compare_b,
            Channel::C => self.compare_c,
        }
    }

    // Sets the compare value of a channel.
    fn set_compare(&mut self, chan: Channel, value: u16)
        ensures { self.new ≡ with_compare self.old chan value }
    {
        match chan {
            Channel::A => self.compare_a = value,
            Channel::B => self.compare_b = value,
            Channel::C => self.compare_c = value,
        }
    }

    // The low byte of a word, whose high byte goes to TEMP.
    fn low_first(&mut self, word: u16) -> u8
        ensures value { result ≡ word % 256 }
        ensures state { self.new ≡ record self.old { temp = word / 256 } }
    {
        self.temp = (word / 256) as u8;
        (word % 256) as u8
    }

    // TCCRB as it reads.
    pub(crate) fn control_b(&self) -> u8
        ensures { result ≡ control_b self.now }
    {
        let input_capture = bit(self.noise_canceler, ICNC) | bit(self.rising_edge, ICES);
        input_capture | self.mode.number() / 4 * 8 | self.select
    }

    /// What the register `reg` reads as. A read of the low byte of TCNT or ICR fills TEMP with the high one, and a
    /// read of their high byte gives TEMP; nothing else changes.
    #[inline(always)]
    pub fn get(&mut self, reg: Reg16) -> u8
        ensures { get_of self.old reg ≡ (result, self.new) }
    {
        match reg {
            Reg16::ControlA | Reg16::ControlC => 0,
            Reg16::ControlB => self.control_b(),
            Reg16::CountL => self.low_first(self.count),
            Reg16::IcrL => self.low_first(self.icr),
            Reg16::CountH | Reg16::IcrH => self.temp,
            Reg16::CompL(chan) => (self.compare(chan) % 256) as u8,
            Reg16::CompH(chan) => (self.compare(chan) / 256) as u8,
        }
    }

    /// What the register `reg` reads as after the `n` cycles from `cycle` on, of which the timer is not told, and none
    /// of which sets a flag: a read that does not move it, but for TEMP.
    #[inline(always)]
    pub fn get_calm(&mut self, cycle: u64, n: u64, reg: Reg16) -> u8
        requires early { cycle + n ≤ LAST_END }
        requires calm { (i : ℕ) → i < n → sets_flag_at cycle self.old i ≡ false }
        ensures got { get_of (cycles timer_cycle cycle n self.old) reg ≡ (result, cycles timer_cycle cycle n self.new) }
        ensures others { self.new ≡ record self.old { temp = self.new.temp } }
    {
        match reg {
            Reg16::CountL => {
                let count = self.count_calm(cycle, n);
                self.low_first(count)
            }
            Reg16::ControlA
            | Reg16::ControlB
            | Reg16::ControlC
            | Reg16::CountH
            | Reg16::IcrL
            | Reg16::IcrH
            | Reg16::CompL(_)
            | Reg16::CompH(_) => self.get(reg),
        }
    }

    /// Writes the byte `b` to the register `reg`. A write of a high byte fills TEMP, one of a low byte writes both
    /// bytes; ICR is written only where it is the top, and a write of TCNT blocks the next compare match. It stops, and
    /// changes nothing, exactly where the byte asks for what is not simulated: a pin driven by a compare match, a mode
    /// other than 0, 4 and 12, a clock from a pin, a forced compare match.
    pub fn put(&mut self, reg: Reg16, b: u8) -> Result<(), StopCause>
        ensures ok { OnOk result (put_of self.old reg b ≡ Ok self.new) }
        ensures err { IfErr result (λ cause. put_of self.old reg b ≡ Err cause) }
        ensures same { OnErr result (self.new ≡ self.old) }
    {
        match reg {
            Reg16::ControlA => self.put_control_a(b),
            Reg16::ControlB => self.put_control_b(b),
            Reg16::ControlC => {
                if any_bit(b, FOC_ABC) {
                    return Err(StopCause::ForcedCompare);
                }
                Ok(())
            }
            Reg16::CountL => {
                self.count = self.word_with(b);
                self.match_blocked = true;
                Ok(())
            }
            Reg16::IcrL => {
                if self.clears_at_icr() {
                    self.icr = self.word_with(b);
                }
                Ok(())
            }
            Reg16::CompL(chan) => {
                self.set_compare(chan, self.word_with(b));
                Ok(())
            }
            Reg16::CountH | Reg16::IcrH | Reg16::CompH(_) => {
                self.temp = b;
                Ok(())
            }
        }
    }

    // A write of TCCRA, whose bits 7 to 2 drive pins and whose bits 1 and 0 are WGM1:0.
    fn put_control_a(&mut self, b: u8) -> Result<(), StopCause>
        ensures ok { OnOk result (put_of self.old Reg16.ControlA b ≡ Ok self.new) }
        ensures err { IfErr result (λ cause. put_of self.old Reg16.ControlA b ≡ Err cause) }
        ensures same { OnErr result (self.new ≡ self.old) }
    {
        if any_bit(b, COM_ABC) {
            return Err(StopCause::CompareOutput);
        }
        match Mode16::numbered(self.mode.number() / 4 * 4 + b % 4) {
            None => Err(StopCause::PwmMode),
            Some(mode) => {
                self.mode = mode;
                Ok(())
            }
        }
    }

    // A write of TCCRB: ICNC, ICES, a bit that is not used, WGM3:2, and the clock select.
    fn put_control_b(&mut self, b: u8) -> Result<(), StopCause>
        ensures ok { OnOk result (put_of self.old Reg16.ControlB b ≡ Ok self.new) }
        ensures err { IfErr result (λ cause. put_of self.old Reg16.ControlB b ≡ Err cause) }
        ensures same { OnErr result (self.new ≡ self.old) }
    {
        match Mode16::numbered(b / 8 % 4 * 4 + self.mode.number() % 4) {
            None => Err(StopCause::PwmMode),
            Some(mode) => {
                if Prescaler::Shared.is_pin(b % 8) {
                    return Err(StopCause::ExternalTimerClock);
                }
                self.mode = mode;
                self.select = b % 8;
                self.noise_canceler = any_bit(b, ICNC);
                self.rising_edge = any_bit(b, ICES);
                Ok(())
            }
        }
    }
}
