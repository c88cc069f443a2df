// The numbers of the radio, by which it is saved and restored.
ghost use Rattle.std.specs.Prelude.{◌≡◌, ◌≤◌, true, Some, IfSome, is_some};
ghost use Rattle.air_base.specs.declared.bounds.TheConstants.{LONGEST_BYTE};
ghost use Rattle.serial_ports.specs.RadioNumbers.{are_numbers, heard_in, state_number, state_of};

use crate::numbers::owned;
use crate::{Radio, RadioState};
use air_base::{Heard, LAST_END};
use device_base::all_fit;

impl Radio {
    ghost use Rattle.serial_ports.specs.RadioNumbers.{HasNumbers, fits, numbers_of};

    /// Its numbers: its state (0 idle, 1 waits for the byte to send, 2 to 4 with three, two and one answers left), the
    /// status, the byte and the age of what was heard, 0 where nothing is to be answered, and the first cycle in which
    /// it may send again. A radio whose sample is not answered yet has 5 as its state, which `from_numbers` refuses.
    pub fn numbers(&self) -> [u64; 5]
        ensures { result ≡ numbers_of self.now }
    {
        let heard = self.state.heard();
        [
            self.state.number(),
            u64::from(heard.status),
            u64::from(heard.byte),
            u64::from(heard.age),
            self.free,
        ]
    }

    /// A test for each of these `numbers`, whether it is within its bound: the state is at most 4, the status at most
    /// 2, byte and age are bytes, all three are 0 in the states 0 and 1, and the cycle is at most 2^41.
    #[tactic(auto, unfolding(crate::specs::RadioNumbers::fits))]
    pub fn fits(numbers: &[u64; 5]) -> [bool; 5]
        ensures { result ≡ fits numbers.now }
    {
        let [state, status, byte, age, free] = *numbers;
        let answers = state >= 2;
        [
            state <= 4,
            status <= owned(answers, 2),
            byte <= owned(answers, 255),
            age <= owned(answers, 255),
            free <= LAST_END,
        ]
    }

    /// The radio that has these `numbers`, in the order of `numbers`, and whose bytes are on the air for `byte_time`
    /// cycles, at most 4,096. `None` exactly where one of the numbers breaks its bound.
    pub fn from_numbers(byte_time: u64, numbers: &[u64; 5]) -> Option<Radio>
        requires { byte_time ≤ LONGEST_BYTE }
        ensures none { is_some result ≡ are_numbers numbers.now }
        ensures some { IfSome result (λ r. HasNumbers byte_time numbers.now r) }
        ensures one { (r : Radio) → HasNumbers byte_time numbers.now r → are_numbers numbers.now ≡ true → result ≡ Some r }
    {
        if !are_numbers(numbers) {
            return None;
        }
        let [state, status, byte, age, free] = *numbers;
        let heard = Heard {
            status: status as u8,
            byte: byte as u8,
            age: age as u8,
        };
        Some(Radio {
            byte_time: byte_time as u16,
            free,
            state: state_of(state, heard),
        })
    }
}

impl RadioState {
    // Its number.
    fn number(self) -> u64
        ensures { result ≡ state_number self }
    {
        match self {
            RadioState::Idle => 0,
            RadioState::ToSend => 1,
            RadioState::Status { .. } => 2,
            RadioState::Byte { .. } => 3,
            RadioState::Age { .. } => 4,
            RadioState::ToSample => 5,
        }
    }

    // What was heard and is still to be answered.
    fn heard(self) -> Heard
        ensures { result ≡ heard_in self }
    {
        match self {
            RadioState::Status { heard } | RadioState::Byte { heard } | RadioState::Age { heard } =>
                heard,
            RadioState::Idle | RadioState::ToSend | RadioState::ToSample => Heard {
                status: 0,
                byte: 0,
                age: 0,
            },
        }
    }
}

// The state of a number up to 4.
fn state_of(number: u64, heard: Heard) -> RadioState
    ensures { result ≡ state_of number heard }
{
    match number {
        0 => RadioState::Idle,
        1 => RadioState::ToSend,
        2 => RadioState::Status { heard },
        3 => RadioState::Byte { heard },
        _ => RadioState::Age { heard },
    }
}

// Whether each number is within its bound.
fn are_numbers(numbers: &[u64; 5]) -> bool
    ensures { result ≡ are_numbers numbers.now }
{
    all_fit(&Radio::fits(numbers))
}
