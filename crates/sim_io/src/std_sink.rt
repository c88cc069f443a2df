// The streams of the real system.
ghost use Rattle.std.specs.Prelude.{◌≡◌, ◌<◌, ◌≤◌, length, take, IfOk, OnOk, OnErr};
ghost use Rattle.std.specs.Io.KnownBytes.{WriteAppends};
ghost use Rattle.sim_io.specs.Outside.{Rose, extended};

use crate::{Sink, SinkFault};
use std::io::{ErrorKind, Write};
use std::marker::Model;
use std::snapshot::Snapshot;

/// A stream of the process, as its standard output. A contract sees the count of its faults, and what its writer holds
/// where the writer tells: what a real stream took is not told.
#[derive(Drop)]
pub struct StdSink<W: Write + Drop> {
    writer: W,
    count: u64,
    // The writer as it came: where it told its bytes then, it tells them still.
    first: Snapshot<W>,
}

impl<W: Write + Drop> Model for StdSink<W> {
    ghost use Rattle.sim_io.specs.Stream.{StreamSink, told_since, TellsStill};

    ghost Value = { StreamSink };

    ghost view = { λ s. record { faults = s.count; contents = told_since (W.contents s.first.value) (W.contents s.writer) } };

    ghost invariant = { λ s. TellsStill (W.contents s.first.value) (W.contents s.writer) };
}

impl<W: Write + Drop> StdSink<W> {
    /// A sink over this writer. No write has failed yet.
    pub fn new(writer: W) -> Self
        ensures { result ≡ record { faults = 0; contents = W.contents writer } }
    {
        let first = Snapshot::of(&writer);
        StdSink {
            writer,
            count: 0,
            first,
        }
    }
}

// One write, tried again where a signal cut it off. A writer that takes nothing of a piece that is not empty fails.
fn write_some<W: Write>(writer: &mut W, piece: &[u8]) -> Result<usize, SinkFault>
    ensures within { IfOk result (λ n. n ≤ length piece.now) }
    ensures goes_on { IfOk result (λ n. 0 < length piece.now → 0 < n) }
    ensures bytes { WriteAppends (W.contents writer.old) (W.contents writer.new) result piece.now }
{
    if piece.is_empty() {
        return Ok(0);
    }
    for _ in 0..u64::MAX {
        match writer.write(piece) {
            Ok(0) => return Err(SinkFault),
            Ok(n) => return Ok(n),
            Err(error) => {
                if error.kind() != ErrorKind::Interrupted {
                    return Err(SinkFault);
                }
            }
        }
    }
    Err(SinkFault)
}

impl<W: Write + Drop> Sink for StdSink<W> {
    ghost taken = { λ s. s.contents };

    ghost faults = { λ s. s.faults };

    fn write(&mut self, piece: &[u8]) -> Result<usize, SinkFault>
        ensures taken { IfOk result (λ n. self.new.contents ≡ extended self.old.contents (take n piece.now)) }
        ensures err { OnErr result (self.new.contents ≡ self.old.contents) }

        ensures within { IfOk result (λ n. n ≤ length piece.now) }
        ensures goes_on { IfOk result (λ n. 0 < length piece.now → 0 < n) }
        ensures ok { OnOk result (self.new.faults ≡ self.old.faults) }
        ensures later { self.old.faults ≤ self.new.faults }
        ensures rose { OnErr result (Rose self.old.faults self.new.faults) }
    {
        match write_some(&mut self.writer, piece) {
            Ok(n) => Ok(n),
            Err(fault) => {
                self.count = self.count.saturating_add(1);
                Err(fault)
            }
        }
    }
}
