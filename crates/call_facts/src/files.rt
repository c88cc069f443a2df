// The files that a stored run of calls holds.
use crate::held::Held;
use std::fs::Files;
use stored_cases::{Failed, bytes_of};

/// Holds the real file of this name, which lies where the program runs.
pub fn hold_file<R: Files + AllocGlobal>(
    rt: &R,
    name: &str,
    held: &mut Held,
) -> Result<(), Failed> {
    let bytes = bytes_of(rt, name)?;
    Ok(held.add(rt.alloc(), name, bytes)?)
}

/// Holds a file as a line says, or answers false where it says nothing of files: `file NAME` holds an empty file, to
/// which [`takes_content`] adds, `copy NAME` the real file of that name, and `blank NAME N` one of so many blank lines.
pub fn takes_file<R: Files + AllocGlobal>(
    rt: &R,
    line: &str,
    held: &mut Held,
) -> Result<bool, Failed> {
    let alloc = rt.alloc();
    match line.split_once(' ') {
        Some(("file", name)) => held.add(alloc, name, Vec::new(alloc))?,
        Some(("copy", name)) => hold_file(rt, name, held)?,
        Some(("blank", rest)) => {
            let Some((name, length)) = named_number(rest) else {
                return Err(Failed);
            };
            held.add_blank(alloc, name, length)?;
        }
        _ => return Ok(false),
    }
    Ok(true)
}

/// Adds what stands behind the bar of a line `|TEXT` to the last file that is held, as a line. It answers false where a
/// line has no bar in front.
pub fn takes_content(line: &str, held: &mut Held) -> Result<bool, Failed> {
    match line.strip_prefix('|') {
        Some(content) => {
            held.extend(content)?;
            Ok(true)
        }
        None => Ok(false),
    }
}

/// The words of a text `NAME N`; `None` where it is no such text.
pub fn named_number(text: &str) -> Option<(&str, usize)> {
    let (name, number) = text.split_once(' ')?;
    Some((name, number.parse().ok()?))
}
