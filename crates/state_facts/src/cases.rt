// What a case comes to.
use crate::edits::apply;
use crate::state::base;
use checkpoint_text::read_parts;
use node_runner::Scenario;
use state_text::{StateFault, StateParts};
use std::alloc::Global;
use stored_cases::{Failed, Judge, Verdict, is_told};

// What was read, in the words of a case.
fn answer(alloc: Global, read: &Result<StateParts, StateFault>) -> Result<String, Failed> {
    Ok(match read {
        Ok(_) => String::from_str(alloc, "Ok")?,
        Err(StateFault::NotAState { line }) => format!(in alloc; "NotAState {line}")?,
        Err(StateFault::OutOfBounds { line }) => format!(in alloc; "OutOfBounds {line}")?,
        Err(StateFault::PastEnd) => String::from_str(alloc, "PastEnd")?,
        Err(StateFault::NoMemory) => return Err(Failed),
    })
}

/// The cases of states of one network.
#[derive(Drop)]
pub struct StateCases {
    /// The network.
    pub scenario: Scenario,
}

impl Judge for StateCases {
    /// Judges a line `ANSWER | CHANGE ; CHANGE ..`: whether the state with these changes is answered so.
    fn judge(&mut self, alloc: Global, line: &str) -> Result<Verdict, Failed> {
        if !is_told(line) {
            return Ok(Verdict::NoCase);
        }
        let Some((want, edits)) = line.split_once('|') else {
            return Ok(Verdict::Unread);
        };
        let mut text = base(alloc)?;
        for edit in edits.split(';') {
            apply(alloc, &mut text, edit)?;
        }
        let bytes = text.bytes(alloc)?;
        let got = answer(alloc, &read_parts(alloc, &self.scenario, bytes.as_slice()))?;
        Ok(Verdict::of(got.as_str() == want.trim()))
    }
}
