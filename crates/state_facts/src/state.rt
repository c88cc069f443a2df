// The state that the cases change.
use std::alloc::Global;
use stored_cases::Failed;

/// A text, line by line.
#[derive(Drop)]
pub struct Text {
    pub lines: Vec<String>,
    /// Whether its last LF is missing.
    pub is_cut: bool,
}

impl Text {
    /// The bytes of the text: each line with a LF.
    pub fn bytes(&self, alloc: Global) -> Result<Vec<u8>, Failed> {
        let mut bytes = Vec::new(alloc);
        for line in &self.lines {
            bytes.extend_from_slice(line.as_str().as_bytes())?;
            bytes.push(b'\n')?;
        }
        if self.is_cut {
            bytes.pop();
        }
        Ok(bytes)
    }
}

// A line of a node, of so many equal pieces.
fn node_line(
    alloc: Global,
    word: &str,
    node: u8,
    count: u16,
    piece: &str,
) -> Result<String, Failed> {
    let mut line = format!(in alloc; "{word} {node}")?;
    for _ in 0..count {
        line.push_str(piece)?;
    }
    Ok(line)
}

/// The state at the end of the first epoch: each node with all numbers and bytes 0, and two sends. It has 15 lines.
pub fn base(alloc: Global) -> Result<Text, Failed> {
    let mut lines = Vec::new(alloc);
    lines.push(String::from_str(alloc, "avrora state 1")?)?;
    lines.push(String::from_str(alloc, "cycle 262144")?)?;
    for node in 0..2 {
        lines.push(node_line(alloc, "core", node, 41, " 0")?)?;
        lines.push(node_line(alloc, "timers", node, 38, " 0")?)?;
        lines.push(node_line(alloc, "ports", node, 29, " 0")?)?;
        let mut io = node_line(alloc, "io", node, 1, " ")?;
        for _ in 0..224 {
            io.push_str("00")?;
        }
        lines.push(io)?;
        let mut sram = node_line(alloc, "sram", node, 1, " ")?;
        for _ in 0..4096 {
            sram.push_str("00")?;
        }
        lines.push(sram)?;
    }
    lines.push(String::from_str(alloc, "send 0 261400 A5")?)?;
    lines.push(String::from_str(alloc, "send 1 262143 5A")?)?;
    lines.push(String::from_str(alloc, "end")?)?;
    Ok(Text {
        lines,
        is_cut: false,
    })
}
