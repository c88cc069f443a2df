// What is done to the radio.
ghost use Rattle.std.specs.Prelude.{◌≤◌, ◌^◌};
ghost use Rattle.air_base.specs.Bounds.{LAST_END};

use crate::answers::Answer;
use crate::numbers::{byte, cycle, short};
use crate::saved::saved_radio;
use air_base::{Heard, LONGEST_BYTE};
use serial_ports::{Radio, TransferOutcome};

// What a sample hears where nothing else is said: one byte.
const HEARD: Heard = Heard {
    status: 1,
    byte: 0x5A,
    age: 3,
};

// A transfer that ends in a cycle; where the radio asks the air, it hears this.
fn moved(radio: &mut Radio, at: u64, selected: bool, mosi: u8, heard: Heard) -> Answer
    requires { at ≤ LAST_END }
{
    match radio.transfer(at, selected, mosi) {
        TransferOutcome::Answer(b) => Answer::Byte(b),
        TransferOutcome::Send { byte, miso } => Answer::Sent(byte, miso),
        TransferOutcome::Ask => {
            radio.answer(heard);
            Answer::Asks
        }
    }
}

fn new_radio(word: &str) -> Option<Radio> {
    let byte_time = u64::from(short(word)?);
    if byte_time > LONGEST_BYTE {
        return None;
    }
    Some(Radio::new(byte_time))
}

// A status, a byte and an age.
fn heard(status: &str, b: &str, age: &str) -> Option<Heard> {
    Some(Heard {
        status: status.parse().ok()?,
        byte: byte(b)?,
        age: age.parse().ok()?,
    })
}

/// What a line does to the radio, and its answer; `None` where it is none of the forms.
pub fn do_radio(radio: &mut Radio, words: &[&str]) -> Option<Answer> {
    match words {
        ["new", byte_time] => {
            *radio = new_radio(byte_time)?;
            Some(Answer::Done)
        }
        [at, "selected", b] => Some(moved(radio, cycle(at)?, true, byte(b)?, HEARD)),
        [at, "selected", b, "hears", status, found, age] => {
            let heard = heard(status, found, age)?;
            Some(moved(radio, cycle(at)?, true, byte(b)?, heard))
        }
        [at, "released", b] => Some(moved(radio, cycle(at)?, false, byte(b)?, HEARD)),
        words => saved_radio(radio, words),
    }
}
