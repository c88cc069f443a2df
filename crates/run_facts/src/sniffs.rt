// What a sniffer gives of what a node sends, each line of a text file the bytes: in two pieces, for every place of the
// cut.
ghost use Rattle.std.specs.Prelude.{◌≤◌, length};

use air_base::Send;
use air_sniffer::{Frame, Sniffer};
use sim_io::{Sink, write_all};
use std::alloc::Global;
use std::fs::Files;
use stored_cases::{Failed, LineCases, do_lines, write_line};

// Node 0 sends the bytes of this line from cycle 0 on, 512 cycles apart, and node 1 sends AA one cycle behind each.
fn sends_of(alloc: Global, line: &str) -> Result<Vec<Send>, Failed> {
    let mut sends = Vec::new(alloc);
    let mut cycle = 0u64;
    for word in line.split_whitespace() {
        let Ok(byte) = u8::from_str_radix(word, 16) else {
            return Err(Failed);
        };
        sends.push(Send {
            node: 0,
            cycle,
            byte,
        })?;
        sends.push(Send {
            node: 1,
            cycle: cycle.saturating_add(1),
            byte: 0xAA,
        })?;
        cycle = cycle.saturating_add(512);
    }
    Ok(sends)
}

fn put_frame(alloc: Global, frame: &Frame, when: &str, text: &mut String) -> Result<(), Failed> {
    let bytes = frame.payload.bytes();
    let head = format!(in alloc;
        "  {when}{} {} frame {} ",
        frame.cycle,
        frame.node,
        bytes.len()
    )?;
    text.push_str(head.as_str())?;
    for byte in bytes {
        let digits = format!(in alloc; "{byte:02X}")?;
        text.push_str(digits.as_str())?;
    }
    Ok(text.push_str("\n")?)
}

fn put_frames(
    alloc: Global,
    frames: &[Frame],
    when: &str,
    text: &mut String,
) -> Result<(), Failed> {
    for frame in frames {
        put_frame(alloc, frame, when, text)?;
    }
    Ok(())
}

// The frames of these sends, cut there: first those that are given as the pieces are fed, and then those of the end.
fn frames_cut(alloc: Global, sends: &[Send], cut: usize) -> Result<String, Failed>
    requires { cut ≤ length sends.now }
{
    let mut text = String::new(alloc);
    let Ok(mut sniffer) = Sniffer::new(alloc, 0) else {
        return Err(Failed);
    };
    for piece in [&sends[..cut], &sends[cut..]] {
        let Ok(frames) = sniffer.feed(piece) else {
            return Err(Failed);
        };
        put_frames(alloc, &frames, "", &mut text)?;
    }
    let Ok(frames) = sniffer.finish() else {
        return Err(Failed);
    };
    put_frames(alloc, &frames, "at the end ", &mut text)?;
    Ok(text)
}

// How many cuts give other frames than the sends in one piece.
fn other_cuts(alloc: Global, sends: &[Send], whole: &str) -> Result<u32, Failed> {
    let mut others = 0u32;
    for cut in 0..sends.len() {
        let text = frames_cut(alloc, sends, cut)?;
        if text.as_str() != whole {
            others = others.saturating_add(1);
        }
    }
    Ok(others)
}

// Sends that a sniffer gets.
#[derive(Drop)]
struct Sniffs;

impl LineCases for Sniffs {
    fn do_case<R: Files + AllocGlobal, O: Sink>(
        &mut self,
        rt: &R,
        line: &str,
        out: &mut O,
    ) -> Result<(), Failed> {
        let alloc = rt.alloc();
        let sends = sends_of(alloc, line)?;
        let whole = frames_cut(alloc, &sends, sends.len())?;
        let others = other_cuts(alloc, &sends, whole.as_str())?;
        write_all(out, whole.as_str().as_bytes())?;
        let count = format!(in alloc; "{} cuts, {others} of them other", sends.len())?;
        Ok(write_line(count.as_str(), out)?)
    }
}

/// Gives a sniffer the sends of each line of a file; the lines are written too.
pub fn do_sniffs<R: Files + AllocGlobal, O: Sink>(
    rt: &R,
    file: &str,
    out: &mut O,
) -> Result<(), Failed> {
    do_lines(rt, file, &mut Sniffs, out)
}
