// The devices, and the lines that do something to them.
use crate::answers::{Answer, text_of};
use crate::board::{CoreAndBoard, do_board};
use crate::clocks::{do_clocks, do_interrupts};
use crate::lagging::{NodeBoard, do_lagging};
use crate::radio::do_radio;
use crate::serial::{do_script, do_usart};
use crate::timers::{do_timer8, do_timer16};
use crate::transfers::do_spi;
use avr_timers::{Prescaler, Timer8, Timer16};
use serial_ports::{Radio, Spi, Usart};
use std::alloc::Global;
use stored_cases::{Failed, Judge, Verdict, is_told, words_of};

/// One device of each kind, and a timer of each kind that was kept.
#[derive(Drop)]
pub struct Bench {
    alloc: Global,
    timer8: Timer8,
    kept8: Timer8,
    timer16: Timer16,
    kept16: Timer16,
    spi: Spi,
    usart: Usart,
    radio: Radio,
    board: CoreAndBoard,
    lagging: NodeBoard,
}

impl Bench {
    /// A bench whose devices are all at reset.
    pub fn new(alloc: Global) -> Self {
        Bench {
            alloc,
            timer8: Timer8::new(Prescaler::Own),
            kept8: Timer8::new(Prescaler::Own),
            timer16: Timer16::new(),
            kept16: Timer16::new(),
            spi: Spi::new(),
            usart: Usart::new(),
            radio: Radio::new(512),
            board: CoreAndBoard::new(),
            lagging: NodeBoard::new(),
        }
    }

    // Keeps a timer, or takes the kept one back.
    fn keep(&mut self, device: &str, what: &str) -> Option<Answer> {
        match (device, what) {
            ("timer8", "keep") => self.kept8 = self.timer8,
            ("timer8", "back") => self.timer8 = self.kept8,
            ("timer16", "keep") => self.kept16 = self.timer16,
            ("timer16", "back") => self.timer16 = self.kept16,
            _ => return None,
        }
        Some(Answer::Done)
    }

    fn act(&mut self, device: &str, words: &[&str]) -> Option<Answer> {
        match device {
            "timer8" => do_timer8(&mut self.timer8, words),
            "timer16" => do_timer16(&mut self.timer16, words),
            "spi" => do_spi(&mut self.spi, words),
            "usart" => do_usart(&mut self.usart, words),
            "script" => do_script(self.alloc, words),
            "radio" => do_radio(&mut self.radio, words),
            "board" => do_board(&mut self.board, words),
            "lagging" => do_lagging(&mut self.lagging, words),
            "clocks" => do_clocks(words),
            "interrupts" => do_interrupts(words),
            _ => None,
        }
    }

    fn answer(&mut self, words: &[&str]) -> Option<Answer> {
        match words {
            [device, what] if *what == "keep" || *what == "back" => self.keep(device, what),
            [device, rest @ ..] => self.act(device, rest),
            [] => None,
        }
    }
}

impl Judge for Bench {
    /// Does what a line says, `DEVICE WORD .. gives ANSWER`. Without an answer it is to be done. A line that does
    /// nothing is a wrong one.
    fn judge(&mut self, alloc: Global, line: &str) -> Result<Verdict, Failed> {
        if !is_told(line) {
            return Ok(Verdict::NoCase);
        }
        let (does, gives) = line.split_once(" gives ").unwrap_or((line, "done"));
        let words = words_of(alloc, does)?;
        let Some(answer) = self.answer(words.as_slice()) else {
            return Ok(Verdict::Wrong);
        };
        Ok(Verdict::of(text_of(alloc, answer)?.as_str() == gives))
    }
}
