// A case file whose steps are taken on a shared record, those of each line in a session of its own.
use crate::holding::is_compared;
use crate::parts::Parts;
use air_cases::{Fault, Lines, Section, Setting, run_lines, sections_of};
use std::alloc::Global;
use std::sync::Wait;

// How far a file is read.
#[derive(Drop)]
struct Reader<'r, R: Wait> {
    rt: &'r R,
    alloc: Global,
    setting: Setting,
    parts: Option<Parts>,
}

// Whether a line that begins with this word has the steps of a session.
fn is_step(word: &str) -> bool {
    matches!(word, "r" | "p" | "try" | "wait" | "halt")
}

// Cuts the record, or compares what it holds.
fn between<R: Wait>(
    rt: &R,
    alloc: Global,
    parts: &mut Parts,
    section: &Section<'_>,
) -> Result<(), Fault> {
    if is_compared(alloc, parts.air(), section)? {
        return Ok(());
    }
    match (section.word, section.numbers.as_slice()) {
        ("cut", [floor]) => parts.cut(rt, *floor),
        _ => Err(Fault::Unreadable),
    }
}

impl<'r, R: Wait> Reader<'r, R> {
    // Reads what says a world, or what is done between two sessions. It gives the number of the latter.
    fn read(&mut self, section: &Section<'_>) -> Result<u32, Fault> {
        if self.setting.set(self.alloc, section)? {
            return Ok(0);
        }
        if section.word == "open" {
            self.parts = Some(Parts::new(self.alloc, self.setting.world()?)?);
            return Ok(0);
        }
        let Some(parts) = &mut self.parts else {
            return Err(Fault::Unreadable);
        };
        between(self.rt, self.alloc, parts, section)?;
        Ok(1)
    }

    // Takes the steps of a line.
    fn go(&mut self, line: &[Section<'_>]) -> Result<u32, Fault> {
        let Some(parts) = self.parts.take() else {
            return Err(Fault::Unreadable);
        };
        let (parts, ran) = parts.go(self.rt, self.alloc, line);
        self.parts = Some(parts);
        ran
    }
}

impl<'r, R: Wait> Lines for Reader<'r, R> {
    fn line(&mut self, line: &str) -> Result<u32, Fault> {
        let sections = sections_of(self.alloc, line)?;
        match sections.first() {
            Some(first) if is_step(first.word) => self.go(&sections),
            _ => {
                let mut count = 0u32;
                for section in &sections {
                    count = count.saturating_add(self.read(section)?);
                }
                Ok(count)
            }
        }
    }
}

/// The number of cases in a file, all of which are as it says, or the first line, counted from 1, that is not.
pub fn run_file<R: Wait>(rt: &R, alloc: Global, text: &str) -> Result<u32, (u32, Fault)> {
    let mut reader = Reader {
        rt,
        alloc,
        setting: Setting::new(alloc),
        parts: None,
    };
    run_lines(&mut reader, text)
}
