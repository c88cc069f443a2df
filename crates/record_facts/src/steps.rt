// A case file whose steps are taken on the record alone.
use crate::holding::is_compared;
use crate::stand::Stand;
use air_cases::{Answer, Answers, Fault, Lines, Section, Setting, byte_of, run_lines, sections_of};
use std::alloc::Global;

// How far a file is read.
#[derive(Drop)]
struct Reader {
    alloc: Global,
    setting: Setting,
    stand: Option<Stand>,
}

// What the record answers to a step; `None` where the step has no answer.
fn answer_to(
    alloc: Global,
    stand: &mut Stand,
    section: &Section<'_>,
) -> Result<Option<Answer>, Fault> {
    match (section.word, section.numbers.as_slice()) {
        ("r", [node, clock]) => {
            stand.raise(byte_of(*node)?, *clock)?;
            Ok(None)
        }
        ("p", [node, number]) => {
            let answer = stand.post(alloc, byte_of(*node)?, *number)?;
            Ok(Some(answer))
        }
        ("s", [node, cycle]) => {
            let answer = stand.sample(byte_of(*node)?, *cycle)?;
            Ok(Some(answer))
        }
        ("cut", [floor]) => {
            let answer = stand.cut(*floor)?;
            Ok(Some(answer))
        }
        _ => Err(Fault::Unreadable),
    }
}

impl Reader {
    // Takes a step, or compares what the record holds.
    fn step(&mut self, section: &Section<'_>, answers: &mut Answers) -> Result<(), Fault> {
        let Some(stand) = &mut self.stand else {
            return Err(Fault::Unreadable);
        };
        if is_compared(self.alloc, stand.air(), section)? {
            answers.count_one();
        } else if let Some(got) = answer_to(self.alloc, stand, section)? {
            answers.open(got);
        }
        Ok(())
    }

    fn read(&mut self, section: &Section<'_>, answers: &mut Answers) -> Result<(), Fault> {
        if answers.compare(section)? || self.setting.set(self.alloc, section)? {
            return Ok(());
        }
        if section.word == "open" {
            self.stand = Some(Stand::new(self.alloc, self.setting.world()?)?);
            return Ok(());
        }
        self.step(section, answers)
    }
}

impl Lines for Reader {
    fn line(&mut self, line: &str) -> Result<u32, Fault> {
        let mut answers = Answers::none();
        for section in &sections_of(self.alloc, line)? {
            self.read(section, &mut answers)?;
        }
        answers.end()
    }
}

/// The number of cases in a file, all of which are as it says, or the first line, counted from 1, that is not.
pub fn run_file(alloc: Global, text: &str) -> Result<u32, (u32, Fault)> {
    let mut reader = Reader {
        alloc,
        setting: Setting::new(alloc),
        stand: None,
    };
    run_lines(&mut reader, text)
}
