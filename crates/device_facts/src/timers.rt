// What is done to a timer.
use crate::answers::Answer;
use crate::numbers::{byte, cycle};
use crate::saved::{saved_timer8, saved_timer16};
use avr_timers::{Channel, Prescaler, Reg8, Reg16, Timer8, Timer16, TimerFlags};

fn flag(name: &str) -> Option<TimerFlags> {
    let none = TimerFlags::NONE;
    match name {
        "over" => Some(TimerFlags { tov: true, ..none }),
        "a" => Some(TimerFlags {
            ocf_a: true,
            ..none
        }),
        "b" => Some(TimerFlags {
            ocf_b: true,
            ..none
        }),
        "c" => Some(TimerFlags {
            ocf_c: true,
            ..none
        }),
        "icr" => Some(TimerFlags { icf: true, ..none }),
        _ => None,
    }
}

fn reg8(name: &str) -> Option<Reg8> {
    match name {
        "control" => Some(Reg8::Control),
        "count" => Some(Reg8::Count),
        "compare" => Some(Reg8::Compare),
        _ => None,
    }
}

fn new8(which: &str) -> Option<Timer8> {
    match which {
        "0" => Some(Timer8::new(Prescaler::Own)),
        "2" => Some(Timer8::new(Prescaler::Shared)),
        _ => None,
    }
}

fn ticks8(timer: &mut Timer8, from: &str, n: &str) -> Option<Answer> {
    let (from, n) = (cycle(from)?, cycle(n)?);
    for i in 0..n {
        timer.tick(from + i);
    }
    Some(Answer::Done)
}

/// What a line does to a timer of eight bits, and its answer; `None` where it is none of the forms.
pub fn do_timer8(timer: &mut Timer8, words: &[&str]) -> Option<Answer> {
    match words {
        ["new", which] => {
            *timer = new8(which)?;
            Some(Answer::Done)
        }
        ["put", reg, b] => Some(Answer::of_put(timer.put(reg8(reg)?, byte(b)?))),
        ["get", reg] => Some(Answer::Byte(timer.get(reg8(reg)?))),
        ["tick", from, n] => ticks8(timer, from, n),
        ["leap", from, n] => {
            timer.leap(cycle(from)?, cycle(n)?);
            Some(Answer::Done)
        }
        ["next", from] => Some(Answer::perhaps(timer.next_event(cycle(from)?))),
        ["flags"] => Some(Answer::Flags(timer.flags())),
        ["clear", name] => {
            timer.clear(flag(name)?);
            Some(Answer::Done)
        }
        words => saved_timer8(timer, words),
    }
}

fn reg16(name: &str) -> Option<Reg16> {
    match name {
        "control_a" => Some(Reg16::ControlA),
        "control_b" => Some(Reg16::ControlB),
        "control_c" => Some(Reg16::ControlC),
        "count_l" => Some(Reg16::CountL),
        "count_h" => Some(Reg16::CountH),
        "icr_l" => Some(Reg16::IcrL),
        "icr_h" => Some(Reg16::IcrH),
        "a_l" => Some(Reg16::CompL(Channel::A)),
        "a_h" => Some(Reg16::CompH(Channel::A)),
        "b_l" => Some(Reg16::CompL(Channel::B)),
        "b_h" => Some(Reg16::CompH(Channel::B)),
        "c_l" => Some(Reg16::CompL(Channel::C)),
        "c_h" => Some(Reg16::CompH(Channel::C)),
        _ => None,
    }
}

fn ticks16(timer: &mut Timer16, from: &str, n: &str) -> Option<Answer> {
    let (from, n) = (cycle(from)?, cycle(n)?);
    for i in 0..n {
        timer.tick(from + i);
    }
    Some(Answer::Done)
}

/// What a line does to a timer of sixteen bits, and its answer; `None` where it is none of the forms.
pub fn do_timer16(timer: &mut Timer16, words: &[&str]) -> Option<Answer> {
    match words {
        ["new"] => {
            *timer = Timer16::new();
            Some(Answer::Done)
        }
        ["put", reg, b] => Some(Answer::of_put(timer.put(reg16(reg)?, byte(b)?))),
        ["get", reg] => Some(Answer::Byte(timer.get(reg16(reg)?))),
        ["tick", from, n] => ticks16(timer, from, n),
        ["leap", from, n] => {
            timer.leap(cycle(from)?, cycle(n)?);
            Some(Answer::Done)
        }
        ["next", from] => Some(Answer::perhaps(timer.next_event(cycle(from)?))),
        ["flags"] => Some(Answer::Flags(timer.flags())),
        ["clear", name] => {
            timer.clear(flag(name)?);
            Some(Answer::Done)
        }
        words => saved_timer16(timer, words),
    }
}
