// What is done to USART0, and what a script brings.
use crate::answers::Answer;
use crate::numbers::{byte, cycle, long, short};
use crate::saved::saved_usart;
use air_base::LAST_CYCLE;
use serial_ports::{Script, Stretch, Usart, UsartReg};
use std::alloc::Global;

fn reg(name: &str) -> Option<UsartReg> {
    match name {
        "ucsr_a" => Some(UsartReg::StatusA),
        "ucsr_b" => Some(UsartReg::ControlB),
        "ucsr_c" => Some(UsartReg::ControlC),
        "ubrr_l" => Some(UsartReg::BaudL),
        "ubrr_h" => Some(UsartReg::BaudH),
        "udr" => Some(UsartReg::Udr),
        _ => None,
    }
}

// The first byte that the n cycles from a cycle on give, with its cycle.
fn first_byte(port: &mut Usart, from: &str, n: &str) -> Option<Answer> {
    let (from, n) = (cycle(from)?, cycle(n)?);
    for i in 0..n {
        if let Some(b) = port.tick(from + i) {
            return Some(Answer::Came(from + i, b));
        }
    }
    Some(Answer::Nothing)
}

fn line(port: &Usart, name: &str) -> Option<Answer> {
    let lines = port.lines();
    match name {
        "rxc" => Some(Answer::Truth(lines.rxc)),
        "udre" => Some(Answer::Truth(lines.udre)),
        "txc" => Some(Answer::Truth(lines.txc)),
        _ => None,
    }
}

/// What a line does to USART0, and its answer; `None` where it is none of the forms.
pub fn do_usart(port: &mut Usart, words: &[&str]) -> Option<Answer> {
    match words {
        ["new"] => {
            *port = Usart::new();
            Some(Answer::Done)
        }
        ["put", at, name, b] => Some(Answer::of_put(port.put(cycle(at)?, reg(name)?, byte(b)?))),
        ["get", name] => Some(Answer::Byte(port.get(reg(name)?))),
        ["tick", from, n] => first_byte(port, from, n),
        ["next"] => Some(Answer::perhaps(port.next_event())),
        ["arrive", b] => {
            port.arrive(byte(b)?);
            Some(Answer::Done)
        }
        ["line", name] => line(port, name),
        ["fresh"] => Some(Answer::Truth(*port == Usart::new())),
        words => saved_usart(port, words),
    }
}

// A stretch of three bytes.
fn stretch(alloc: Global, at: u64, every: u16, bytes: [u8; 3]) -> Option<Stretch> {
    if at > LAST_CYCLE || every == 0 {
        return None;
    }
    let bytes = Vec::from_slice(alloc, &bytes).ok()?;
    Some(Stretch::new(at, u64::from(every), bytes))
}

// A script of the bytes 01, 02 and 03.
fn three(alloc: Global, at: u64, every: u16) -> Option<Script> {
    if at > LAST_CYCLE || every == 0 {
        return None;
    }
    let bytes = Vec::from_slice(alloc, &[1, 2, 3]).ok()?;
    Some(Script::new(at, u64::from(every), bytes))
}

// A script of two stretches.
fn six(alloc: Global, first: Option<Stretch>, second: Option<Stretch>) -> Option<Script> {
    let mut stretches = Vec::new(alloc);
    stretches.push(first?).ok()?;
    stretches.push(second?).ok()?;
    Some(Script::of(stretches))
}

// What a script brings.
fn brings(script: Script, words: &[&str]) -> Option<Answer> {
    match words {
        ["byte", c] => {
            let script = script.copy().ok()?;
            Some(Answer::perhaps_byte(script.byte_at(long(c)?)))
        }
        ["quiet", c, most] => Some(Answer::Number(script.quiet(cycle(c)?, cycle(most)?))),
        _ => None,
    }
}

/// What a script of three bytes brings, of which a line has the cycle of the first, and how many cycles one comes after
/// another, or one of twice three; `None` where the line is none of the forms.
pub fn do_script(alloc: Global, words: &[&str]) -> Option<Answer> {
    match words {
        [at, every, "and", from, each, rest @ ..] => {
            let first = stretch(alloc, long(at)?, short(every)?, [1, 2, 3]);
            let second = stretch(alloc, long(from)?, short(each)?, [4, 5, 6]);
            brings(six(alloc, first, second)?, rest)
        }
        [at, every, rest @ ..] => brings(three(alloc, long(at)?, short(every)?)?, rest),
        _ => None,
    }
}
