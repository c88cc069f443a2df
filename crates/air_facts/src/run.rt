// A case file, line by line.
use crate::questions::ask_crates;
use crate::setting::Setting;
use air_cases::{Answers, Fault, Lines, run_lines, sections_of};
use std::alloc::Global;

// What the lines so far have set.
#[derive(Drop)]
struct Reader {
    alloc: Global,
    setting: Setting,
}

impl Lines for Reader {
    fn line(&mut self, line: &str) -> Result<u32, Fault> {
        let mut answers = Answers::none();
        for section in &sections_of(self.alloc, line)? {
            if !answers.compare(section)? && !self.setting.set(self.alloc, section)? {
                answers.open(ask_crates(self.alloc, &self.setting, section)?);
            }
        }
        answers.end()
    }
}

/// The number of cases in a file, all of which are as it says, or the first line, counted from 1, that is not.
pub fn run_file(alloc: Global, text: &str) -> Result<u32, (u32, Fault)> {
    let setting = Setting::new(alloc).map_err(|fault| (0, fault))?;
    run_lines(&mut Reader { alloc, setting }, text)
}
