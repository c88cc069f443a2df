// Cases of the decoder, of the texts of instructions, of digits and of the causes of a stop.
use crate::numbers::{hex, hex_byte};
use arrayvec::ArrayString;
use avr_base::StopCause;
use avr_decoder::{Class, decode, one_row_at_most, width};
use avr_disassembler::{line, text};
use sim_io::{put_decimal, put_distance, put_hex2, put_hex4};

// The causes by their numbers, from 1 on.
static CAUSES: [StopCause; 26] = [
    StopCause::ReservedOpcode,
    StopCause::UndefinedOperands,
    StopCause::Spm,
    StopCause::BreakOp,
    StopCause::SleepMode,
    StopCause::PwmMode,
    StopCause::ExternalTimerClock,
    StopCause::CompareOutput,
    StopCause::ForcedCompare,
    StopCause::InputCapture,
    StopCause::Prescaler,
    StopCause::UsartMode,
    StopCause::SpiSlave,
    StopCause::ExternalMemory,
    StopCause::Watchdog,
    StopCause::Eeprom,
    StopCause::Adc,
    StopCause::Comparator,
    StopCause::Twi,
    StopCause::ExternalInterrupt,
    StopCause::ClockDivision,
    StopCause::AsyncTimer,
    StopCause::MovedVectors,
    StopCause::Usart1,
    StopCause::ReservedAddress,
    StopCause::PastMemory,
];

/// Whether the cause in this place has its number, and this text.
pub fn has_cause(number: u8, wanted: &str) -> bool {
    let causes = CAUSES;
    match causes.get(usize::from(number).wrapping_sub(1)) {
        Some(cause) => cause.number() == number && cause.text() == wanted,
        None => false,
    }
}

/// Whether these are the digits of a number: of a byte, of a word, of a decimal one, or of a distance of words, in
/// two's complement; `None` where it is no such number.
pub fn has_digits(form: &str, number: &str, wanted: &str) -> Option<bool> {
    let mut out = ArrayString::<20>::new();
    match form {
        "byte" => put_hex2(hex_byte(number)?, &mut out),
        "word" => put_hex4(hex(number)?, &mut out),
        "decimal" => put_decimal(number.parse::<u64>().ok()?, &mut out),
        "distance" => put_distance(hex(number)?.cast_signed(), &mut out),
        _ => return None,
    }
    Some(out.as_str() == wanted)
}

/// Whether this is the text of the instruction of a word and the word behind it.
pub fn has_text(word: u16, next: u16, wanted: &str) -> bool {
    let mut out = ArrayString::<32>::new();
    text(decode(word, next), &mut out);
    out.as_str() == wanted
}

/// Whether this is its line at a word address.
pub fn has_line(pc: u16, word: u16, next: u16, wanted: &str) -> bool {
    let mut out = ArrayString::<40>::new();
    line(pc, decode(word, next), &mut out);
    out.as_str() == wanted
}

/// How many words the instruction of a word takes.
pub fn words_at(word: u16) -> u16 {
    one_row_at_most(word);
    u16::from(width(word))
}

fn class_name(class: Class) -> &'static str {
    match class {
        Class::Arith => "arith",
        Class::Memory => "memory",
        Class::Flow => "flow",
        Class::Halting(StopCause::ReservedOpcode) => "reserved",
        Class::Halting(StopCause::UndefinedOperands) => "undefined",
        Class::Halting(StopCause::Spm) => "spm",
        Class::Halting(StopCause::BreakOp) => "break",
        Class::Halting(_) => "halting",
    }
}

/// How many of the 65,536 words are of a class; `None` where none is, as of a name that no class has.
pub fn words_of(name: &str) -> Option<u64> {
    let mut count: u64 = 0;
    for word in 0..=u16::MAX {
        let class = decode(word, 0).class();
        count = count.saturating_add(u64::from(class_name(class) == name));
    }
    if count == 0 {
        return None;
    }
    Some(count)
}

/// How many of the 65,536 words are the first of so many.
pub fn words_of_width(words: u16) -> u64 {
    let mut count: u64 = 0;
    for word in 0..=u16::MAX {
        count = count.saturating_add(u64::from(words_at(word) == words));
    }
    count
}

/// The bytes of the texts of all words, each followed by itself; `None` where a text is longer than 23 bytes or has a
/// byte that is not printed.
pub fn length_of_texts() -> Option<u64> {
    let mut out = ArrayString::<32>::new();
    let mut total: u64 = 0;
    for word in 0..=u16::MAX {
        text(decode(word, word), &mut out);
        let bytes = out.as_bytes();
        if bytes.len() > 23 || !bytes.iter().all(|b| *b >= b' ' && *b < 127) {
            return None;
        }
        total = total.saturating_add(bytes.len() as u64);
    }
    Some(total)
}
