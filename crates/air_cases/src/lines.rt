// The lines of a case file, and the answers in each.
use crate::answer::{Answer, answer_of};
use crate::fault::Fault;
use crate::words::Section;

/// The answers of a line: how many are as the file has them, and the last one until it is compared.
#[derive(Clone, Copy)]
pub struct Answers {
    open: Option<Answer>,
    count: u32,
}

impl Answers {
    /// No answer yet.
    pub fn none() -> Self {
        Answers {
            open: None,
            count: 0,
        }
    }

    /// Compares the open answer with the one that the section has, or answers false where the section has none. It is
    /// `Unreadable` where the section has an answer and none is open, or has none and one is.
    pub fn compare(&mut self, section: &Section<'_>) -> Result<bool, Fault> {
        match (self.open, answer_of(section)?) {
            (None, None) => Ok(false),
            (Some(got), Some(want)) if got == want => {
                self.open = None;
                self.count_one();
                Ok(true)
            }
            (Some(got), Some(want)) => Err(Fault::Differs { got, want }),
            _ => Err(Fault::Unreadable),
        }
    }

    /// What was answered: the next section is to have it.
    pub fn open(&mut self, got: Answer) {
        self.open = Some(got);
    }

    /// Counts what was compared otherwise, and is as the file has it.
    pub fn count_one(&mut self) {
        self.count = self.count.saturating_add(1);
    }

    /// How many answers there were, at the end of a line. It is `Unreadable` where one is open.
    pub fn end(self) -> Result<u32, Fault> {
        match self.open {
            None => Ok(self.count),
            Some(_) => Err(Fault::Unreadable),
        }
    }
}

/// What does the lines of a case file, one after another.
pub trait Lines {
    /// Does a line. It gives how many answers were as the line has them.
    fn line(&mut self, line: &str) -> Result<u32, Fault>;
}

/// Does all lines of a file. It gives how many answers were as the file has them, or the number of the first line, from
/// 1, that stops the run, and why.
pub fn run_lines<L: Lines>(lines: &mut L, text: &str) -> Result<u32, (u32, Fault)> {
    let mut number = 0u32;
    let mut count = 0u32;
    for line in text.lines() {
        number = number.saturating_add(1);
        match lines.line(line) {
            Ok(answers) => count = count.saturating_add(answers),
            Err(fault) => return Err((number, fault)),
        }
    }
    Ok(count)
}
