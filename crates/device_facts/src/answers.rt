// What a device answers, and its text.
use avr_base::StopCause;
use avr_timers::TimerFlags;
use board_io::Sleep;
use std::alloc::{AllocError, Global};

/// What a device answers to a line.
#[derive(Clone, Copy)]
pub enum Answer {
    /// That it is done.
    Done,
    /// That there is none.
    Nothing,
    Byte(u8),
    Number(u64),
    /// The interrupt lines.
    Lines(u64),
    Sleep(Sleep),
    Truth(bool),
    /// A cycle and the byte that came in it.
    Came(u64, u8),
    Stop(StopCause),
    Flags(TimerFlags),
    /// The byte that the radio sends, and the one that it answers.
    Sent(u8, u8),
    /// The byte that the board sends.
    Sends(u8),
    /// That the radio asks the air.
    Asks,
}

impl Answer {
    /// The answer to a write: that it is done, or the stop.
    pub fn of_put(put: Result<(), StopCause>) -> Self {
        match put {
            Ok(()) => Answer::Done,
            Err(cause) => Answer::Stop(cause),
        }
    }

    /// The answer to a read: the byte, or the stop.
    pub fn of_get(got: Result<u8, StopCause>) -> Self {
        match got {
            Ok(b) => Answer::Byte(b),
            Err(cause) => Answer::Stop(cause),
        }
    }

    /// A number as an answer, or that there is none.
    pub fn perhaps(number: Option<u64>) -> Self {
        match number {
            Some(n) => Answer::Number(n),
            None => Answer::Nothing,
        }
    }

    /// A byte as an answer, or that there is none.
    pub fn perhaps_byte(byte: Option<u8>) -> Self {
        match byte {
            Some(b) => Answer::Byte(b),
            None => Answer::Nothing,
        }
    }
}

// The names of the flags that are set, each behind a blank.
fn flags_text(alloc: Global, flags: TimerFlags) -> Result<String, AllocError> {
    let over = if flags.tov { " over" } else { "" };
    let a = if flags.ocf_a { " a" } else { "" };
    let b = if flags.ocf_b { " b" } else { "" };
    let c = if flags.ocf_c { " c" } else { "" };
    let icr = if flags.icf { " icr" } else { "" };
    format!(in alloc; "flags{over}{a}{b}{c}{icr}")
}

/// The text of an answer, as a line has it behind ` gives `.
pub fn text_of(alloc: Global, answer: Answer) -> Result<String, AllocError> {
    match answer {
        Answer::Done => String::from_str(alloc, "done"),
        Answer::Nothing => String::from_str(alloc, "none"),
        Answer::Byte(b) => format!(in alloc; "{b:02X}"),
        Answer::Number(n) => format!(in alloc; "{n}"),
        Answer::Lines(bits) => format!(in alloc; "{bits:08X}"),
        Answer::Sleep(Sleep::Off) => String::from_str(alloc, "off"),
        Answer::Sleep(Sleep::Idle) => String::from_str(alloc, "idle"),
        Answer::Sleep(Sleep::Other) => String::from_str(alloc, "other"),
        Answer::Truth(true) => String::from_str(alloc, "yes"),
        Answer::Truth(false) => String::from_str(alloc, "no"),
        Answer::Came(cycle, b) => format!(in alloc; "{cycle} {b:02X}"),
        Answer::Stop(cause) => String::from_str(alloc, cause.text()),
        Answer::Flags(flags) => flags_text(alloc, flags),
        Answer::Sent(b, miso) => format!(in alloc; "sends {b:02X} answers {miso:02X}"),
        Answer::Sends(b) => format!(in alloc; "sends {b:02X}"),
        Answer::Asks => String::from_str(alloc, "asks"),
    }
}
