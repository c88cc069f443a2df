// Changes of a text.
use crate::state::Text;
use std::alloc::Global;
use stored_cases::{Failed, words_of};

// The place of the line of this number, counted from 1.
fn line_of(text: &Text, number: &str) -> Result<usize, Failed> {
    match number.parse::<usize>() {
        Ok(number) if number >= 1 && number <= text.lines.len() => Ok(number - 1),
        _ => Err(Failed),
    }
}

// A text in which `_` stands for a space, `~` for a tab, `^` for a CR and `!` for nothing.
fn plain(alloc: Global, text: &str) -> Result<String, Failed> {
    let mut plain = String::new(alloc);
    for c in text.chars() {
        match c {
            '_' => plain.push(' ')?,
            '~' => plain.push('\t')?,
            '^' => plain.push('\r')?,
            '!' => {}
            _ => plain.push(c)?,
        }
    }
    Ok(plain)
}

// A line with one of its parts, counted from 0, in another form.
fn with_part(alloc: Global, line: &str, place: usize, part: &str) -> Result<String, Failed> {
    let mut changed = String::new(alloc);
    let mut at = 0usize;
    for old in line.split(' ') {
        if at > 0 {
            changed.push(' ')?;
        }
        changed.push_str(if at == place { part } else { old })?;
        at = at.saturating_add(1);
    }
    Ok(changed)
}

// The digits of a line of bytes, of which two at a place are others.
fn with_digits(alloc: Global, line: &str, place: usize, digits: &str) -> Result<String, Failed> {
    let mut changed = String::new(alloc);
    let from = place.saturating_mul(2);
    let mut at = 0usize;
    for c in line.chars() {
        if at == from {
            changed.push_str(digits)?;
        }
        if at < from || at > from.saturating_add(1) {
            changed.push(c)?;
        }
        at = at.saturating_add(1);
    }
    Ok(changed)
}

fn place_of(word: &str) -> Result<usize, Failed> {
    match word.parse::<usize>() {
        Ok(place) => Ok(place),
        Err(_) => Err(Failed),
    }
}

fn put_line(text: &mut Text, at: usize, line: String) -> Result<(), Failed> {
    match text.lines.get_mut(at) {
        Some(old) => {
            *old = line;
            Ok(())
        }
        None => Err(Failed),
    }
}

fn drop_line(text: &mut Text, at: usize) -> Result<(), Failed> {
    if at >= text.lines.len() {
        return Err(Failed);
    }
    text.lines.remove(at);
    Ok(())
}

// Puts a line before the one at a place.
fn insert_line(text: &mut Text, at: usize, line: String) -> Result<(), Failed> {
    if at > text.lines.len() {
        return Err(Failed);
    }
    text.lines.insert(at, line)?;
    Ok(())
}

fn swap_lines(text: &mut Text, at: usize, other: usize) -> Result<(), Failed> {
    if at >= text.lines.len() || other >= text.lines.len() {
        return Err(Failed);
    }
    text.lines.swap(at, other);
    Ok(())
}

// The line at a place, again.
fn copy_of(alloc: Global, text: &Text, at: usize) -> Result<String, Failed> {
    match text.lines.get(at) {
        Some(line) => Ok(String::from_str(alloc, line.as_str())?),
        None => Err(Failed),
    }
}

// Puts another part into a line.
fn change_part(
    alloc: Global,
    text: &mut Text,
    at: usize,
    place: usize,
    part: &str,
) -> Result<(), Failed> {
    let line = copy_of(alloc, text, at)?;
    let part = plain(alloc, part)?;
    put_line(
        text,
        at,
        with_part(alloc, line.as_str(), place, part.as_str())?,
    )
}

// Puts another byte into the digits of a line.
fn change_byte(
    alloc: Global,
    text: &mut Text,
    at: usize,
    place: usize,
    digits: &str,
) -> Result<(), Failed> {
    let line = copy_of(alloc, text, at)?;
    let Some((head, bytes)) = line.as_str().rsplit_once(' ') else {
        return Err(Failed);
    };
    let bytes = with_digits(alloc, bytes, place, digits)?;
    put_line(text, at, format!(in alloc; "{head} {bytes}")?)
}

// A change of one line.
fn change_line(alloc: Global, text: &mut Text, words: &[&str]) -> Result<(), Failed> {
    let [what, number, rest @ ..] = words else {
        return Err(Failed);
    };
    let at = line_of(text, number)?;
    match (*what, rest) {
        ("part", [place, part]) => change_part(alloc, text, at, place_of(place)?, part),
        ("byte", [place, digits]) => change_byte(alloc, text, at, place_of(place)?, digits),
        ("line", [line]) => put_line(text, at, plain(alloc, line)?),
        ("drop", []) => drop_line(text, at),
        ("twice", []) => {
            let line = copy_of(alloc, text, at)?;
            insert_line(text, at, line)
        }
        ("swap", [other]) => {
            let other = line_of(text, other)?;
            swap_lines(text, at, other)
        }
        ("before", [line]) => {
            let line = plain(alloc, line)?;
            insert_line(text, at, line)
        }
        _ => Err(Failed),
    }
}

/// Makes a change: `part LINE PLACE TEXT`, `byte LINE PLACE DIGITS`, `line LINE TEXT`, `drop LINE`, `twice LINE`, `swap
/// LINE LINE`, `before LINE TEXT`, `behind TEXT` of a last line, or `cut` of the last LF.
pub fn apply(alloc: Global, text: &mut Text, edit: &str) -> Result<(), Failed> {
    let words = words_of(alloc, edit)?;
    match words.as_slice() {
        [] => Ok(()),
        ["cut"] => {
            text.is_cut = true;
            Ok(())
        }
        ["behind", line] => Ok(text.lines.push(plain(alloc, line)?)?),
        words => change_line(alloc, text, words),
    }
}
