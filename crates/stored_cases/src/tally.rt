// How many cases a file has.
use crate::failed::Failed;
use crate::writing::write_line;
use sim_io::Sink;
use std::alloc::Global;

/// How many cases there were, and how many of them were wrong.
#[derive(Clone, Copy)]
pub struct Tally {
    cases: u64,
    wrong: u64,
}

impl Tally {
    /// The tally of no case.
    pub fn none() -> Self {
        Tally { cases: 0, wrong: 0 }
    }

    /// Counts one case more, which is right or wrong.
    pub fn count(&mut self, right: bool) {
        self.cases = self.cases.saturating_add(1);
        self.wrong = self.wrong.saturating_add(u64::from(!right));
    }

    /// Writes both numbers behind the name of the cases. It fails where a case is wrong, or where there is none.
    pub fn tell<O: Sink>(self, alloc: Global, name: &str, out: &mut O) -> Result<(), Failed> {
        let line = format!(in alloc; "{name}: {} cases, {} wrong", self.cases, self.wrong)?;
        write_line(line.as_str(), out)?;
        if self.cases > 0 && self.wrong == 0 {
            Ok(())
        } else {
            Err(Failed)
        }
    }
}
