// Devices of numbers, and the numbers of a device.
use crate::answers::Answer;
use crate::numbers::{cycle, long, short};
use air_base::LONGEST_BYTE;
use avr_timers::{Prescaler, Timer8, Timer16};
use device_base::first_outside;
use serial_ports::{Radio, Spi, Usart};

// As many decimal numbers as the device has.
fn all<const N: usize>(words: &[&str]) -> Option<[u64; N]> {
    if words.len() != N {
        return None;
    }
    let mut numbers = [0; N];
    for k in 0..N {
        numbers[k] = long(words[k])?;
    }
    Some(numbers)
}

// Takes the device that numbers make, where they make one.
fn taken<T: Copy>(device: &mut T, made: Option<T>) -> Answer {
    match made {
        Some(made) => {
            *device = made;
            Answer::Done
        }
        None => Answer::Nothing,
    }
}

// The place of the first number outside its bound.
fn outside(fits: &[bool]) -> Answer {
    match first_outside(fits) {
        Some(place) => Answer::Number(place as u64),
        None => Answer::Nothing,
    }
}

fn prescaler(which: &str) -> Option<Prescaler> {
    match which {
        "0" => Some(Prescaler::Own),
        "2" => Some(Prescaler::Shared),
        _ => None,
    }
}

/// What comes of `restore`, `outside` or `numbers` with the numbers of a saved timer of eight bits; `None` of another
/// line.
pub fn saved_timer8(timer: &mut Timer8, words: &[&str]) -> Option<Answer> {
    match words {
        ["restore", which, numbers @ ..] => {
            let made = Timer8::from_numbers(prescaler(which)?, &all(numbers)?);
            Some(taken(timer, made))
        }
        ["outside", which, numbers @ ..] => {
            Some(outside(&Timer8::fits(prescaler(which)?, &all(numbers)?)))
        }
        ["numbers", numbers @ ..] => Some(Answer::Truth(timer.numbers() == all(numbers)?)),
        _ => None,
    }
}

/// What comes of `restore`, `outside` or `numbers` with the numbers of a saved timer of sixteen bits; `None` of another
/// line.
pub fn saved_timer16(timer: &mut Timer16, words: &[&str]) -> Option<Answer> {
    match words {
        ["restore", numbers @ ..] => Some(taken(timer, Timer16::from_numbers(&all(numbers)?))),
        ["outside", numbers @ ..] => Some(outside(&Timer16::fits(&all(numbers)?))),
        ["numbers", numbers @ ..] => Some(Answer::Truth(timer.numbers() == all(numbers)?)),
        _ => None,
    }
}

/// What comes of `restore`, `outside` or `numbers` with the numbers of a saved USART0; `None` of another line.
pub fn saved_usart(port: &mut Usart, words: &[&str]) -> Option<Answer> {
    match words {
        ["restore", at, numbers @ ..] => {
            let made = Usart::from_numbers(cycle(at)?, &all(numbers)?);
            Some(taken(port, made))
        }
        ["outside", at, numbers @ ..] => Some(outside(&Usart::fits(cycle(at)?, &all(numbers)?))),
        ["numbers", numbers @ ..] => Some(Answer::Truth(port.numbers() == all(numbers)?)),
        _ => None,
    }
}

/// What comes of `restore`, `outside` or `numbers` with the numbers of a saved SPI; `None` of another line.
pub fn saved_spi(port: &mut Spi, words: &[&str]) -> Option<Answer> {
    match words {
        ["restore", at, numbers @ ..] => {
            let made = Spi::from_numbers(cycle(at)?, &all(numbers)?);
            Some(taken(port, made))
        }
        ["outside", at, numbers @ ..] => Some(outside(&Spi::fits(cycle(at)?, &all(numbers)?))),
        ["numbers", numbers @ ..] => Some(Answer::Truth(port.numbers() == all(numbers)?)),
        _ => None,
    }
}

// A radio of a byte time up to 4,096 cycles.
fn made_radio(byte_time: u64, numbers: &[u64; 5]) -> Option<Radio> {
    if byte_time > LONGEST_BYTE {
        return None;
    }
    Radio::from_numbers(byte_time, numbers)
}

/// What comes of `restore`, `outside` or `numbers` with the numbers of a saved radio; `None` of another line.
pub fn saved_radio(radio: &mut Radio, words: &[&str]) -> Option<Answer> {
    match words {
        ["restore", byte_time, numbers @ ..] => {
            let made = made_radio(u64::from(short(byte_time)?), &all(numbers)?);
            Some(taken(radio, made))
        }
        ["outside", numbers @ ..] => Some(outside(&Radio::fits(&all(numbers)?))),
        ["numbers", numbers @ ..] => Some(Answer::Truth(radio.numbers() == all(numbers)?)),
        _ => None,
    }
}
