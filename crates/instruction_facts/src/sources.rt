// The sources of a file: it is lines of bytes. A line `== NAME` begins a case, a line `-> ..` ends it with what comes
// of it, and the source is what stands between them, without the last LF. In it a line `* N TEXT` stands for N lines of
// the text, and in the line that ends it `N*WORD` for a word N times.
use asm_text::{AsmFault, assemble};
use sim_io::{Sink, write_all};
use std::alloc::{AllocError, Global};
use std::fs::Files;
use stored_cases::{Failed, Tally, TextCase, bytes_of, write_line};

// Adds a line to a source, as often as it says.
fn add(source: &mut TextCase<'_>, line: &[u8]) -> Result<(), AllocError> {
    let (times, text) = repeated(line);
    for _ in 0..times {
        source.add(text)?;
    }
    Ok(())
}

// A line `* N TEXT` stands for N lines of the text.
fn repeated(line: &[u8]) -> (u32, &[u8]) {
    if let [b'*', b' ', rest @ ..] = line {
        let mut parts = rest.splitn(2, |b| *b == b' ');
        if let (Some(count), Some(text)) = (parts.next(), parts.next()) {
            if let Some(n) = number(count) {
                return (n, text);
            }
        }
    }
    (1, line)
}

fn number(digits: &[u8]) -> Option<u32> {
    std::str::from_utf8(digits).ok()?.parse::<u32>().ok()
}

fn fault_text(alloc: Global, fault: AsmFault) -> Result<String, AllocError> {
    let name = fault.name();
    match fault.line() {
        Some(line) => format!(in alloc; "-> {name} {line}"),
        None => format!(in alloc; "-> {name}"),
    }
}

fn words_text(alloc: Global, words: &[u16]) -> Result<String, AllocError> {
    let mut text = String::from_str(alloc, "->")?;
    for word in words {
        text.push_str(format!(in alloc; " {word:04X}")?.as_str())?;
    }
    Ok(text)
}

// What comes of a source, as the line that ends a case has it.
fn answer(alloc: Global, source: &[u8]) -> Result<String, AllocError> {
    match assemble(alloc, source) {
        Ok(words) => words_text(alloc, words.as_slice()),
        Err(fault) => fault_text(alloc, fault),
    }
}

// What a word of the line that ends a case stands for, and how often: `WORD` or `N*WORD`.
fn counted(word: &[u8]) -> (u32, &[u8]) {
    let mut parts = word.splitn(2, |b| *b == b'*');
    if let (Some(count), Some(rest)) = (parts.next(), parts.next()) {
        if let Some(n) = number(count) {
            return (n, rest);
        }
    }
    (1, word)
}

// The line that ends a case, with each word as often as it says.
fn spelled_out(alloc: Global, line: &[u8]) -> Result<Vec<u8>, AllocError> {
    let mut text = Vec::new(alloc);
    for word in line.split(|b| *b == b' ') {
        let (times, word) = counted(word);
        for _ in 0..times {
            if !text.is_empty() {
                text.push(b' ')?;
            }
            text.extend_from_slice(word)?;
        }
    }
    Ok(text)
}

// Judges a case by the line that ends it; what came of one that is wrong is written.
fn is_right<O: Sink>(
    alloc: Global,
    case: &TextCase<'_>,
    line: &[u8],
    out: &mut O,
) -> Result<bool, Failed> {
    let got = answer(alloc, case.text())?;
    if got.as_str().as_bytes() == spelled_out(alloc, line)?.as_slice() {
        return Ok(true);
    }
    write_all(out, case.name())?;
    write_all(out, b": ")?;
    write_line(got.as_str(), out)?;
    Ok(false)
}

/// Assembles the sources of one file, and writes how many there were, and what came of each that does not give its
/// words or its fault.
pub fn do_sources<R: Files + AllocGlobal, O: Sink>(
    rt: &R,
    file: &str,
    out: &mut O,
) -> Result<(), Failed> {
    let alloc = rt.alloc();
    let bytes = bytes_of(rt, file)?;
    let mut tally = Tally::none();
    let mut open: Option<TextCase<'_>> = None;
    for line in bytes.as_slice().split(|b| *b == b'\n') {
        if let Some(begun) = TextCase::begun_by(alloc, line) {
            open = Some(begun);
        } else if let Some(mut case) = open.take() {
            if line.starts_with(b"->") {
                tally.count(is_right(alloc, &case, line, out)?);
            } else {
                add(&mut case, line)?;
                open = Some(case);
            }
        }
    }
    tally.tell(alloc, file, out)
}
