// One line of a file of calls.
use crate::calling::{Faults, Stream};
use crate::files::named_number;
use std::alloc::{AllocError, Global};
use stored_cases::numbers_of;

/// A call: its words, and where its outside fails.
#[derive(Drop)]
pub struct Call<'l> {
    pub words: Vec<&'l str>,
    pub faults: Faults,
}

/// What a line says.
#[derive(Drop)]
pub enum Line<'l> {
    /// That the store holds a file.
    File(&'l str),
    /// That it holds a text of so many blank lines.
    Blank(&'l str, usize),
    /// That it holds a text of so many lines of these characters.
    Lines(&'l str, usize, &'l str),
    /// What is called.
    Call(Call<'l>),
    /// What is called where no file gets memory.
    Starved(Vec<&'l str>),
    /// That the number of each status is told.
    Statuses,
    /// None of these.
    Other,
}

// The words of a text; `""` is the empty word.
fn words(alloc: Global, text: &str) -> Result<Vec<&str>, AllocError> {
    let mut all = Vec::new(alloc);
    for word in text.split_whitespace() {
        all.push(if word == "\"\"" { "" } else { word })?;
    }
    Ok(all)
}

// `ROOM STEP FAIL ..`
fn stream_of(alloc: Global, text: &str) -> Result<Option<Stream>, AllocError> {
    let Some(all) = numbers_of(alloc, text)? else {
        return Ok(None);
    };
    let [room, step, fail @ ..] = all.as_slice() else {
        return Ok(None);
    };
    Ok(Some(Stream {
        room: usize::try_from(*room).unwrap_or(0),
        step: usize::try_from(*step).unwrap_or(0),
        fail: Vec::from_slice(alloc, fail)?,
    }))
}

// The part of a line behind ` | NAME `, up to the next bar; empty where there is none.
fn part<'l>(line: &'l str, name: &str) -> &'l str {
    for piece in line.split('|') {
        if let Some((first, rest)) = piece.trim().split_once(' ') {
            if first == name {
                return rest;
            }
        }
    }
    ""
}

fn named_stream(alloc: Global, line: &str, name: &str) -> Result<Option<Stream>, AllocError> {
    let text = part(line, name);
    if text.is_empty() {
        return Ok(Some(Stream::ample(alloc)));
    }
    stream_of(alloc, text)
}

// `call WORD .. | reads FAIL .. | out ROOM STEP FAIL .. | err ROOM STEP FAIL ..`, where what is ample is left out.
fn read_call<'l>(alloc: Global, line: &'l str) -> Result<Line<'l>, AllocError> {
    let Some(reads) = numbers_of(alloc, part(line, "reads"))? else {
        return Ok(Line::Other);
    };
    let Some(out) = named_stream(alloc, line, "out")? else {
        return Ok(Line::Other);
    };
    let Some(err) = named_stream(alloc, line, "err")? else {
        return Ok(Line::Other);
    };
    Ok(Line::Call(Call {
        words: words(alloc, part(line, "call"))?,
        faults: Faults { reads, out, err },
    }))
}

// `NAME N`
fn read_blank(rest: &str) -> Option<Line<'_>> {
    let (name, length) = named_number(rest)?;
    Some(Line::Blank(name, length))
}

// `NAME N TEXT`
fn read_lines(rest: &str) -> Option<Line<'_>> {
    let (name, rest) = rest.split_once(' ')?;
    let (count, text) = rest.split_once(' ')?;
    Some(Line::Lines(name, count.parse().ok()?, text))
}

/// Reads what a line of a file of calls says.
pub fn read_line<'l>(alloc: Global, line: &'l str) -> Result<Line<'l>, AllocError> {
    if line == "statuses" {
        return Ok(Line::Statuses);
    }
    if line.starts_with("call") {
        return read_call(alloc, line);
    }
    match line.split_once(' ') {
        Some(("file", name)) => Ok(Line::File(name)),
        Some(("blank", rest)) => Ok(read_blank(rest).unwrap_or(Line::Other)),
        Some(("starved", rest)) => Ok(Line::Starved(words(alloc, rest)?)),
        Some(("lines", rest)) => Ok(read_lines(rest).unwrap_or(Line::Other)),
        _ => Ok(Line::Other),
    }
}
