// The numbers of a timer, by which it is saved and restored.
ghost use Rattle.std.specs.Prelude.{◌≡◌, true, Some, IfSome, is_some};
ghost use Rattle.avr_timers.specs.Numbers8.{are_numbers};

use crate::{Prescaler, Reg8, Timer8};
use device_base::names::WGM1;
use device_base::{all_fit, any_bit};

impl Timer8 {
    ghost use Rattle.avr_timers.specs.Numbers8.{HasNumbers, fits, is_select, numbers_of};

    /// Its numbers: TCCR, TCNT, OCR, then as 0 or 1 whether the next compare match is blocked, TOV and OCF. Where its
    /// clock select is one that its prescaler has, `from_numbers` makes an equal timer.
    pub fn numbers(&self) -> [u64; 6]
        ensures value { result ≡ numbers_of self.now }
        ensures within { is_select self.now.prescaler self.now.select ≡ true → are_numbers self.now.prescaler result ≡ true }
    {
        [
            u64::from(self.get(Reg8::Control)),
            u64::from(self.count),
            u64::from(self.compare),
            u64::from(self.match_blocked),
            u64::from(self.tov),
            u64::from(self.ocf_a),
        ]
    }

    /// A test for each of these `numbers`, whether it is within its bound for a timer of this prescaler. TCCR is a byte
    /// that `put` accepts, as it reads, TCNT and OCR are bytes, and the others are 0 or 1.
    #[tactic(auto, unfolding(crate::specs::Numbers8::fits))]
    pub fn fits(prescaler: Prescaler, numbers: &[u64; 6]) -> [bool; 6]
        ensures { result ≡ fits prescaler numbers.now }
    {
        let [control, count, compare, match_blocked, tov, ocf_a] = *numbers;
        [
            control <= 15 && !prescaler.is_pin((control % 8) as u8),
            count <= 255,
            compare <= 255,
            match_blocked <= 1,
            tov <= 1,
            ocf_a <= 1,
        ]
    }

    /// The timer that has these `numbers`, in the order of `numbers`. `None` exactly where one of them breaks its
    /// bound.
    pub fn from_numbers(prescaler: Prescaler, numbers: &[u64; 6]) -> Option<Timer8>
        ensures none { is_some result ≡ are_numbers prescaler numbers.now }
        ensures some { IfSome result (λ tm. HasNumbers prescaler numbers.now tm) }
        ensures one { (tm : Timer8) → HasNumbers prescaler numbers.now tm → are_numbers prescaler numbers.now ≡ true → result ≡ Some tm }
    {
        if !are_numbers(prescaler, numbers) {
            return None;
        }
        let [control, count, compare, match_blocked, tov, ocf_a] = *numbers;
        Some(Timer8 {
            prescaler,
            ctc: any_bit(control as u8, WGM1),
            select: (control % 8) as u8,
            count: count as u8,
            compare: compare as u8,
            match_blocked: match_blocked == 1,
            tov: tov == 1,
            ocf_a: ocf_a == 1,
        })
    }
}

// Whether each number of a timer is within its bound.
fn are_numbers(prescaler: Prescaler, numbers: &[u64; 6]) -> bool
    ensures { result ≡ are_numbers prescaler numbers.now }
{
    all_fit(&Timer8::fits(prescaler, numbers))
}
