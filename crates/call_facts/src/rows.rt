// The rows of a series.
use arrayvec::ArrayString;
use sim_io::{Sink, SinkFault, put_decimal, write_all};
use std::alloc::Global;

/// The calls of a series so far: equal outcomes of calls one after another are one row.
#[derive(Drop)]
pub struct Rows {
    first: u64,
    last: u64,
    // What the calls from the first to the last came to; nothing where there was no call yet.
    text: Vec<u8>,
}

impl Rows {
    /// The rows of no call.
    pub fn new(alloc: Global) -> Self {
        Rows {
            first: 0,
            last: 0,
            text: Vec::new(alloc),
        }
    }

    /// Adds a call, with its number and what it came to, and writes the row above it where that is complete.
    pub fn add<O: Sink>(
        &mut self,
        number: u64,
        text: Vec<u8>,
        out: &mut O,
    ) -> Result<(), SinkFault> {
        if text.as_slice() == self.text.as_slice() {
            self.last = number;
            return Ok(());
        }
        self.end(out)?;
        self.first = number;
        self.last = number;
        self.text = text;
        Ok(())
    }

    /// Writes the row of the last calls: `N: ..` or `N to N: ..`.
    pub fn end<O: Sink>(&self, out: &mut O) -> Result<(), SinkFault> {
        if self.text.is_empty() {
            return Ok(());
        }
        let mut head = ArrayString::<64>::new();
        put_decimal(self.first, &mut head);
        if self.last != self.first {
            head.push_str(" to ");
            put_decimal(self.last, &mut head);
        }
        head.push_str(": ");
        write_all(out, head.as_str().as_bytes())?;
        write_all(out, self.text.as_slice())?;
        write_all(out, b"\n")
    }
}
