// The run that a line of a case file tells.

/// Where a run's read or stream fails.
#[derive(Clone, Copy)]
pub enum Limits {
    /// Nowhere.
    Ample,
    /// The read with this number, from 0, fails.
    Read(u64),
    /// The output takes so many bytes in all.
    Out(usize),
    /// The error stream takes so many bytes in all.
    Err(usize),
}

// `KIND N`
fn read_limits(rest: &str) -> Option<Limits> {
    let (kind, number) = rest.split_once(' ')?;
    let number = number.parse::<u32>().ok()?;
    match kind {
        "read" => Some(Limits::Read(u64::from(number))),
        "out" => Some(Limits::Out(number as usize)),
        "err" => Some(Limits::Err(number as usize)),
        _ => None,
    }
}

/// The scenario that a line `run NAME` or `run NAME KIND N` runs, and where that fails; `None` where it is no such
/// line.
pub fn read_run(line: &str) -> Option<(&str, Limits)> {
    let run = line.strip_prefix("run ")?;
    match run.split_once(' ') {
        None => Some((run, Limits::Ample)),
        Some((name, limits)) => Some((name, read_limits(limits)?)),
    }
}
