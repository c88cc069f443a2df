// The numbers of a timer, by which it is saved and restored.
ghost use Rattle.std.specs.Prelude.{◌≡◌, ◌≤◌, true, Some, IfSome, is_some};
ghost use Rattle.avr_timers.specs.Numbers16.{are_numbers, control_mode};

use crate::{Mode16, Prescaler, Timer16, TimerFlags};
use device_base::all_fit;

impl Timer16 {
    ghost use Rattle.avr_timers.specs.Numbers16.{HasNumbers, fits, numbers_of};

    /// Its numbers: TCCRB, TCNT, OCRA, OCRB, OCRC, ICR, TEMP, then as 0 or 1 whether the next compare match is blocked,
    /// TOV, OCFA, OCFB, OCFC and ICF. Where its clock select is at most 5, `from_numbers` makes an equal timer.
    pub fn numbers(&self) -> [u64; 13]
        ensures value { result ≡ numbers_of self.now }
        ensures within { self.now.select ≤ 5 → are_numbers result ≡ true }
    {
        [
            u64::from(self.control_b()),
            u64::from(self.count),
            u64::from(self.compare_a),
            u64::from(self.compare_b),
            u64::from(self.compare_c),
            u64::from(self.icr),
            u64::from(self.temp),
            u64::from(self.match_blocked),
            u64::from(self.flags.tov),
            u64::from(self.flags.ocf_a),
            u64::from(self.flags.ocf_b),
            u64::from(self.flags.ocf_c),
            u64::from(self.flags.icf),
        ]
    }

    /// A test for each of these `numbers`, whether it is within its bound: TCCRB is a byte that `put` accepts, as it
    /// reads, TEMP is a byte, the five before it have sixteen bits, and the others are 0 or 1.
    #[tactic(auto, unfolding(crate::specs::Numbers16::fits))]
    pub fn fits(numbers: &[u64; 13]) -> [bool; 13]
        ensures { result ≡ fits numbers.now }
    {
        let [
            control,
            count,
            compare_a,
            compare_b,
            compare_c,
            icr,
            temp,
            match_blocked,
            tov,
            ocf_a,
            ocf_b,
            ocf_c,
            icf,
        ] = *numbers;
        [
            control_mode(control).is_some(),
            count <= 65535,
            compare_a <= 65535,
            compare_b <= 65535,
            compare_c <= 65535,
            icr <= 65535,
            temp <= 255,
            match_blocked <= 1,
            tov <= 1,
            ocf_a <= 1,
            ocf_b <= 1,
            ocf_c <= 1,
            icf <= 1,
        ]
    }

    /// The timer that has these `numbers`, in the order of `numbers`. `None` exactly where one of them breaks its
    /// bound.
    pub fn from_numbers(numbers: &[u64; 13]) -> Option<Timer16>
        ensures none { is_some result ≡ are_numbers numbers.now }
        ensures some { IfSome result (λ tm. HasNumbers numbers.now tm) }
        ensures one { (tm : Timer16) → HasNumbers numbers.now tm → are_numbers numbers.now ≡ true → result ≡ Some tm }
    {
        let [
            control,
            count,
            compare_a,
            compare_b,
            compare_c,
            icr,
            temp,
            match_blocked,
            tov,
            ocf_a,
            ocf_b,
            ocf_c,
            icf,
        ] = *numbers;
        if !are_numbers(numbers) {
            return None;
        }
        let mode = control_mode(control)?;
        Some(Timer16 {
            mode,
            select: (control % 8) as u8,
            noise_canceler: control & 0x80 != 0,
            rising_edge: control & 0x40 != 0,
            count: count as u16,
            compare_a: compare_a as u16,
            compare_b: compare_b as u16,
            compare_c: compare_c as u16,
            icr: icr as u16,
            temp: temp as u8,
            match_blocked: match_blocked == 1,
            flags: TimerFlags {
                tov: tov == 1,
                ocf_a: ocf_a == 1,
                ocf_b: ocf_b == 1,
                ocf_c: ocf_c == 1,
                icf: icf == 1,
            },
        })
    }
}

// The mode of a number of TCCRB, `None` exactly where it breaks its bound.
#[tactic(auto, unfolding(crate::specs::Numbers16::control_mode))]
fn control_mode(control: u64) -> Option<Mode16>
    ensures { result ≡ control_mode control }
{
    if control <= 255 && control & 0x20 == 0 && !Prescaler::Shared.is_pin((control % 8) as u8) {
        Mode16::numbered((control / 8 % 4 * 4) as u8)
    } else {
        None
    }
}

// Whether each number of a timer is within its bound.
fn are_numbers(numbers: &[u64; 13]) -> bool
    ensures { result ≡ are_numbers numbers.now }
{
    all_fit(&Timer16::fits(numbers))
}
