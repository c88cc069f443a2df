// A reader and a writer that move few bytes at a call, and whose calls end as they are told to.
use std::io::{self, ErrorKind, Read, Write};

/// What a call does.
#[derive(Clone, Copy)]
pub enum Turn {
    /// It moves bytes.
    Moves,
    /// It moves none, and that is no error.
    Rests,
    /// A signal cuts it off.
    IsCut,
    /// It fails.
    Fails,
    /// It fails for want of memory.
    LacksMemory,
}

/// Another reader or writer, of which each call moves at most `step` bytes and ends as `turns` says; those behind the
/// last of these move bytes.
#[derive(Drop)]
pub struct Halting<'t, T> {
    inner: T,
    step: usize,
    turns: &'t [Turn],
    calls: usize,
}

impl<'t, T> Halting<'t, T> {
    /// A reader or writer over this one, of which no call was made yet.
    pub fn new(inner: T, step: usize, turns: &'t [Turn]) -> Self {
        Halting {
            inner,
            step,
            turns,
            calls: 0,
        }
    }

    /// The reader or writer below.
    pub fn inner(&self) -> &T {
        &self.inner
    }

    fn turn(&mut self) -> Turn {
        let turn = match self.turns.get(self.calls) {
            Some(turn) => *turn,
            None => Turn::Moves,
        };
        self.calls = self.calls.saturating_add(1);
        turn
    }

    // How many bytes the next call may move of so many.
    fn share(&mut self, length: usize) -> io::Result<usize> {
        match self.turn() {
            Turn::Moves => Ok(length.min(self.step)),
            Turn::Rests => Ok(0),
            Turn::IsCut => Err(io::Error::from(ErrorKind::Interrupted)),
            Turn::Fails => Err(io::Error::from(ErrorKind::BrokenPipe)),
            Turn::LacksMemory => Err(io::Error::from(ErrorKind::OutOfMemory)),
        }
    }
}

impl<'t, T: Read> Read for Halting<'t, T> {
    fn read(&mut self, buf: &mut [u8]) -> io::Result<usize> {
        let most = self.share(buf.len())?.min(buf.len());
        self.inner.read(&mut buf[..most])
    }
}

impl<'t, T: Write> Write for Halting<'t, T> {
    fn write(&mut self, buf: &[u8]) -> io::Result<usize> {
        let most = self.share(buf.len())?.min(buf.len());
        self.inner.write(&buf[..most])
    }

    fn flush(&mut self) -> io::Result<()> {
        Ok(())
    }
}
