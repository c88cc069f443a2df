// The lines of a file, of which each is judged by itself.
use crate::failed::Failed;
use crate::reading::text_of;
use crate::tally::Tally;
use crate::writing::write_line;
use sim_io::Sink;
use std::alloc::Global;
use std::fs::Files;

/// What a line of a file of cases comes to.
#[derive(Clone, Copy)]
pub enum Verdict {
    /// It is no case: empty, a comment, or a part of what the cases stand on.
    NoCase,
    /// What it says is what is given.
    Right,
    /// It is not.
    Wrong,
    /// The line is none of the forms.
    Unread,
}

impl Verdict {
    /// The verdict on a case that is right, or is wrong.
    pub fn of(right: bool) -> Self {
        if right {
            Verdict::Right
        } else {
            Verdict::Wrong
        }
    }
}

/// What judges the lines of a file, one after another.
pub trait Judge {
    /// The verdict on the next line.
    fn judge(&mut self, alloc: Global, line: &str) -> Result<Verdict, Failed>;
}

// Writes a line that is wrong, with its file and its number there, and what is wrong.
fn tell_wrong<O: Sink>(
    alloc: Global,
    file: &str,
    number: u64,
    what: &str,
    line: &str,
    out: &mut O,
) -> Result<(), Failed> {
    let text = format!(in alloc; "{file}, line {number}, {what}: {line}")?;
    Ok(write_line(text.as_str(), out)?)
}

/// Judges the lines of a real file. It writes each that is wrong or not read with its number, from 1, and at last how
/// many cases there were, and how many of them were such. It fails where one was, or where there was none.
pub fn judge_file<R: Files + AllocGlobal, J: Judge, O: Sink>(
    rt: &R,
    file: &str,
    judge: &mut J,
    out: &mut O,
) -> Result<(), Failed> {
    let alloc = rt.alloc();
    let text = text_of(rt, file)?;
    let mut tally = Tally::none();
    let mut number = 0u64;
    for line in text.as_str().lines() {
        number = number.saturating_add(1);
        match judge.judge(alloc, line)? {
            Verdict::NoCase => {}
            Verdict::Right => tally.count(true),
            Verdict::Wrong => {
                tally.count(false);
                tell_wrong(alloc, file, number, "wrong", line, out)?;
            }
            Verdict::Unread => {
                tally.count(false);
                tell_wrong(alloc, file, number, "not read", line, out)?;
            }
        }
    }
    tally.tell(alloc, file, out)
}
