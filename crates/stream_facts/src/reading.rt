// One line of a file of cases.
use crate::halting::Turn;
use std::alloc::{AllocError, Global};
use stored_cases::{Failed, numbers_of};

/// A read: the file's name, and the most bytes that it may have.
#[derive(Clone, Copy)]
pub struct Asked<'l> {
    pub name: &'l str,
    pub most: usize,
}

/// What a line asks for.
#[derive(Drop)]
pub enum Case<'l> {
    /// Reads of a store in memory, of which the calls with these numbers fail.
    Store(Vec<u64>, Vec<Asked<'l>>),
    /// A write to a sink in memory, with its room, its step and the calls that fail.
    Sink(Vec<u64>, &'l str),
    /// What a page of four bytes becomes where so much room is asked for.
    Page(Vec<u64>, &'l str),
    /// A read of a real file.
    File(Asked<'l>),
    /// A write to a real file or device.
    Device(&'l str, &'l str),
    /// A write to a stream whose calls move so many bytes and end so.
    Stream(usize, Vec<Turn>, &'l str),
    /// A read of a reader whose calls move so many bytes and end so, of so many bytes at most.
    Source(usize, usize, Vec<Turn>, &'l str),
}

fn numbers(alloc: Global, text: &str) -> Result<Vec<u64>, Failed> {
    match numbers_of(alloc, text)? {
        Some(all) => Ok(all),
        None => Err(Failed),
    }
}

// A number and what stands behind it.
fn number_first(text: &str) -> Result<(usize, &str), Failed> {
    let (first, rest) = text.trim().split_once(' ').unwrap_or((text.trim(), ""));
    match first.parse::<usize>() {
        Ok(n) => Ok((n, rest)),
        Err(_) => Err(Failed),
    }
}

fn asked_of<'l>(text: &'l str) -> Result<Asked<'l>, Failed> {
    let Some((name, most)) = text.trim().split_once(' ') else {
        return Err(Failed);
    };
    match most.parse::<usize>() {
        Ok(most) => Ok(Asked { name, most }),
        Err(_) => Err(Failed),
    }
}

fn all_asked<'l>(alloc: Global, text: &'l str) -> Result<Vec<Asked<'l>>, Failed> {
    let mut all = Vec::new(alloc);
    for piece in text.split(',') {
        all.push(asked_of(piece)?)?;
    }
    Ok(all)
}

fn turns(alloc: Global, text: &str) -> Result<Vec<Turn>, Failed> {
    let mut all = Vec::new(alloc);
    for word in text.split_whitespace() {
        all.push(match word {
            "moves" => Turn::Moves,
            "rests" => Turn::Rests,
            "cut" => Turn::IsCut,
            "fails" => Turn::Fails,
            "memory" => Turn::LacksMemory,
            _ => return Err(Failed),
        })?;
    }
    Ok(all)
}

/// Reads what a line asks for: `KIND NUMBER ..`, and behind a bar the text that is moved.
pub fn read_line<'l>(alloc: Global, line: &'l str) -> Result<Case<'l>, Failed> {
    let (head, text) = line.split_once('|').unwrap_or((line, ""));
    let text = text.trim();
    let (kind, rest) = head.trim().split_once(' ').unwrap_or((head, ""));
    let case = match kind {
        "store" => Case::Store(numbers(alloc, rest)?, all_asked(alloc, text)?),
        "sink" => Case::Sink(numbers(alloc, rest)?, text),
        "page" => Case::Page(numbers(alloc, rest)?, text),
        "file" => Case::File(asked_of(rest)?),
        "device" => Case::Device(rest, text),
        "stream" => {
            let (step, rest) = number_first(rest)?;
            Case::Stream(step, turns(alloc, rest)?, text)
        }
        "source" => {
            let (step, rest) = number_first(rest)?;
            let (most, rest) = number_first(rest)?;
            Case::Source(step, most, turns(alloc, rest)?, text)
        }
        _ => return Err(Failed),
    };
    Ok(case)
}
