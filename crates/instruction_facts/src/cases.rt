// The lines of a file.
ghost use Rattle.std.specs.Prelude.{◌≤◌, length};

use crate::effects::{
    Report, advance, execute, keep, keep_in_pair, keep_in_register, keep_in_sram, pop_byte,
    push_byte,
};
use crate::flags::ruled;
use crate::images::{loads, put_unescaped};
use crate::machine::Machine;
use crate::numbers::{hex, hex_byte, hex_words};
use crate::sweeps::swept;
use crate::texts::{
    has_cause, has_digits, has_line, has_text, length_of_texts, words_at, words_of, words_of_width,
};
use avr_base::Sreg;
use avr_program::Program;
use ihex_loader::flash_of;
use std::alloc::{AllocError, Global};
use stored_cases::{Failed, Judge, Verdict, is_told};

/// The machine on which the cases run that stand below.
#[derive(Drop)]
pub struct Bench {
    start: Machine,
    program: Program,
    image: Vec<u8>,
}

// The program of a flash that begins with these words, at most 65,536.
fn program_of(alloc: Global, words: &[u16]) -> Result<Program, AllocError>
    requires { length words.now ≤ 65536 }
{
    let Ok(flash) = flash_of(alloc, words) else {
        return Err(AllocError);
    };
    match Program::new(alloc, flash) {
        Ok(program) => Ok(program),
        Err(_) => Err(AllocError),
    }
}

impl Bench {
    /// A core after reset over no memory but address 0x0100, and an erased flash.
    pub fn new(alloc: Global) -> Result<Self, AllocError> {
        let program = program_of(alloc, &[])?;
        Ok(Bench {
            start: Machine::new(0x0100, 0x0100),
            program,
            image: Vec::new(alloc),
        })
    }

    // `memory FROM TO`, `start SETTING ..`, `flash WORD ..` or `hex TEXT`.
    fn set(&mut self, alloc: Global, line: &str) -> Result<Option<()>, AllocError> {
        let (part, rest) = front(line);
        match part {
            "memory" => {
                let (from, to) = front(rest);
                Ok(self.set_memory(from, to))
            }
            "start" => Ok(self.set_start(rest)),
            "flash" => self.set_flash(alloc, rest),
            "hex" => put_unescaped(rest, &mut self.image),
            _ => Ok(None),
        }
    }

    fn set_memory(&mut self, from: &str, to: &str) -> Option<()> {
        self.start = Machine::new(hex(from)?, hex(to)?);
        Some(())
    }

    fn set_start(&mut self, settings: &str) -> Option<()> {
        self.start = self.start.with(settings)?;
        Some(())
    }

    fn set_flash(&mut self, alloc: Global, text: &str) -> Result<Option<()>, AllocError> {
        let Some(words) = hex_words(alloc, text)? else {
            return Ok(None);
        };
        if words.len() > 65_536 {
            return Ok(None);
        }
        self.program = program_of(alloc, words.as_slice())?;
        Ok(Some(()))
    }
}

// The first word of a text, and what is behind its blank.
fn front(text: &str) -> (&str, &str) {
    match text.split_once(' ') {
        Some(parts) => parts,
        None => (text, ""),
    }
}

fn byte(n: u16) -> Option<u8> {
    u8::try_from(n).ok()
}

// Does what a case says; `None` where it is no case, or reports what none can.
fn act(what: &str, numbers: &[u16], program: &Program, m: &mut Machine) -> Option<Report> {
    match numbers {
        [] if what == "pop" => pop_byte(m),
        [b] if what == "push" => push_byte(byte(*b)?, m),
        [words] if what == "advance" => Some(advance(*words, m)),
        [at, b] if what == "keep" => keep(*at, byte(*b)?, m),
        [d, b] if what == "reg" => keep_in_register(byte(*d)?, byte(*b)?, m),
        [d, word] if what == "pair" => keep_in_pair(byte(*d)?, *word, m),
        [word, next] => execute(what, *word, *next, program, m),
        _ => None,
    }
}

// An image: what was set of it, and a text behind that.
fn judge_image(
    alloc: Global,
    bench: &mut Bench,
    text: &str,
    gives: &str,
) -> Result<Option<Verdict>, AllocError> {
    let told = put_unescaped(text, &mut bench.image)?;
    let right = loads(alloc, bench.image.as_slice(), gives)?;
    bench.image = Vec::new(alloc);
    Ok(told.and(right).map(Verdict::of))
}

// A byte of an SRAM, in which another one was put.
fn judge_sram(alloc: Global, numbers: &[u16], gives: &str) -> Result<Option<Verdict>, AllocError> {
    let [at, b, from] = numbers else {
        return Ok(None);
    };
    let Some(b) = byte(*b) else {
        return Ok(None);
    };
    let read = keep_in_sram(alloc, *at, b, *from)?;
    Ok(Some(Verdict::of(read.is_some() && read == hex_byte(gives))))
}

// A case on a machine: what is done, the machine before, what is reported and how the machine is changed.
fn judge_effect(
    bench: &Bench,
    what: &str,
    numbers: &[u16],
    settings: &str,
    gives: &str,
) -> Option<Verdict> {
    let mut machine = bench.start.with(settings)?;
    let (report, changes) = front(gives);
    let wanted = machine.with(changes)?;
    let reported = act(what, numbers, &bench.program, &mut machine)?;
    Some(Verdict::of(reported == Report::read(report)? && machine == wanted))
}

// An effect, and behind ` ; ` the text of its instruction, where that is told.
fn judge_told_effect(
    bench: &Bench,
    what: &str,
    numbers: &[u16],
    settings: &str,
    gives: &str,
) -> Option<Verdict> {
    let Some((effect, told)) = gives.split_once(" ; ") else {
        return judge_effect(bench, what, numbers, settings, gives);
    };
    let [word, next] = numbers else {
        return None;
    };
    if !has_text(*word, *next, told) {
        return Some(Verdict::Wrong);
    }
    judge_effect(bench, what, numbers, settings, effect)
}

// A rule on its operands behind SREG gives a result and SREG.
fn judge_rule(rule: &str, numbers: &[u16], gives: &str) -> Option<Verdict> {
    let [sreg, operands @ ..] = numbers else {
        return None;
    };
    let before = Sreg {
        bits: u8::try_from(*sreg).ok()?,
    };
    let (value, after) = front(gives);
    let (r, t) = ruled(rule, before, operands)?;
    Some(Verdict::of(r == hex(value)? && t.bits == hex_byte(after)?))
}

// The words, the text or the line of an instruction.
fn judge_text(numbers: &[u16], gives: &str) -> Option<Verdict> {
    match numbers {
        [word] => Some(Verdict::of(words_at(*word) == hex(gives)?)),
        [word, next] => Some(Verdict::of(has_text(*word, *next, gives))),
        [pc, word, next] => Some(Verdict::of(has_line(*pc, *word, *next, gives))),
        _ => None,
    }
}

// The text of a cause by its number.
fn judge_cause(number: &str, gives: &str) -> Option<Verdict> {
    let number = number.parse::<u8>().ok()?;
    Some(Verdict::of(has_cause(number, gives)))
}

// The digits of a number, or a distance in words.
fn judge_digits(form: &str, number: &str, gives: &str) -> Option<Verdict> {
    Some(Verdict::of(has_digits(form, number, gives)?))
}

// A number over all operands or all words.
fn judge_all(what: &str, name: &str, gives: &str) -> Option<Verdict> {
    let wanted = gives.parse::<u64>().ok()?;
    let number = match what {
        "every" => swept(name)?,
        "class" => words_of(name)?,
        "width" => words_of_width(hex(name)?),
        _ => length_of_texts()?,
    };
    Some(Verdict::of(number == wanted))
}

// Whether a case has this word in front and a name behind it, in place of numbers.
fn is_of_all(what: &str) -> bool {
    what == "every" || what == "class" || what == "width" || what == "texts"
}

fn is_effect(what: &str) -> bool {
    match what {
        "arith" | "flow" | "memory" => true,
        "keep" | "push" | "pop" | "reg" | "pair" | "advance" => true,
        _ => false,
    }
}

// A case by the word in front.
fn judge_case(
    alloc: Global,
    bench: &Bench,
    given: &str,
    gives: &str,
) -> Result<Option<Verdict>, AllocError> {
    let (action, settings) = match given.split_once(" on ") {
        Some(parts) => parts,
        None => (given, ""),
    };
    let (what, operands) = front(action);
    if is_of_all(what) {
        return Ok(judge_all(what, operands, gives));
    }
    if what == "cause" {
        return Ok(judge_cause(operands, gives));
    }
    if what == "digits" {
        let (form, number) = front(operands);
        return Ok(judge_digits(form, number, gives));
    }
    let Some(numbers) = hex_words(alloc, operands)? else {
        return Ok(None);
    };
    if is_effect(what) {
        return Ok(judge_told_effect(bench, what, numbers.as_slice(), settings, gives));
    }
    if what == "sram" {
        return judge_sram(alloc, numbers.as_slice(), gives);
    }
    if what == "words" || what == "text" || what == "line" {
        return Ok(judge_text(numbers.as_slice(), gives));
    }
    Ok(judge_rule(what, numbers.as_slice(), gives))
}

impl Judge for Bench {
    /// Judges one line, `CASE gives ANSWER`, or keeps one that is a part of the machine for those below it.
    fn judge(&mut self, alloc: Global, line: &str) -> Result<Verdict, Failed> {
        if !is_told(line) {
            return Ok(Verdict::NoCase);
        }
        match line.split_once(" gives ") {
            Some((given, gives)) => {
                let verdict = match front(given) {
                    ("image", text) => judge_image(alloc, self, text, gives)?,
                    _ => judge_case(alloc, self, given, gives)?,
                };
                Ok(verdict.unwrap_or(Verdict::Unread))
            }
            None => match self.set(alloc, line)? {
                Some(()) => Ok(Verdict::NoCase),
                None => Ok(Verdict::Unread),
            },
        }
    }
}
