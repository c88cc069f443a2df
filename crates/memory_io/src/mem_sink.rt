// A sink of bytes over memory, whose writes are short and fail where it is told.
ghost use Rattle.std.specs.Prelude.{◌≡◌, ◌<◌, ◌≤◌, [], length, take, Some, IfOk, OnOk, OnErr};
ghost use Rattle.memory_io.specs.Bytes.{fails_on, share_of};
ghost use Rattle.sim_io.specs.Outside.{Rose, extended};

use avr_base::NoMemory;
use sim_io::{Sink, SinkFault};
use std::alloc::Global;
use std::marker::Model;

/// A sink over memory. It takes at most `step` bytes at a call and `room` bytes in all, and the calls of `write` whose
/// numbers, from 0, it was given fail. A contract sees it as a `MemorySink`.
#[derive(Drop)]
pub struct MemSink {
    bytes: Vec<u8>,
    room: usize,
    step: usize,
    fail: Vec<u64>,
    calls: u64,
    count: u64,
}

impl Model for MemSink {
    ghost use Rattle.std.specs.Prelude.{◌≤◌, vec_len, vec_capacity};
    ghost use Rattle.memory_io.specs.Bytes.{MemorySink};

    ghost Value = { MemorySink };

    ghost view = { λ s. record {
      taken = s.bytes.items;
      room = s.room;
      step = s.step;
      fail = s.fail.items;
      calls = s.calls;
      faults = s.count;
    } };

    // A write that fits takes no memory.
    ghost invariant = { λ s. (vec_len s.bytes ≤ s.room) × (s.room ≤ vec_capacity s.bytes) };
}

impl MemSink {
    /// A sink that has taken nothing, with memory for `room` bytes.
    pub fn new(alloc: Global, room: usize, step: usize, fail: Vec<u64>) -> Result<Self, NoMemory>
        ensures { IfOk result (λ sink. sink ≡ record {
          taken = [];
          room = room;
          step = step;
          fail = fail.items;
          calls = 0;
          faults = 0;
        }) }
    {
        let bytes = Vec::with_capacity(alloc, room)?;
        Ok(MemSink {
            bytes,
            room,
            step,
            fail,
            calls: 0,
            count: 0,
        })
    }

    /// The bytes that it took so far.
    pub fn taken(&self) -> &[u8]
        ensures { result.now ≡ self.now.taken }
    {
        &self.bytes
    }

    // How many bytes of a piece go at one call.
    fn share(&self, piece: &[u8]) -> usize
        ensures { result ≡ share_of self.now piece.now }
    {
        piece.len().min(self.step.min(self.room - self.bytes.len()))
    }

    // Whether the next write of this piece fails.
    fn fails(&self, piece: &[u8]) -> bool
        ensures { result ≡ fails_on self.now piece.now }
    {
        self.fail.contains(&self.calls) || (!piece.is_empty() && self.share(piece) == 0)
    }
}

impl Sink for MemSink {
    ghost use Rattle.memory_io.specs.Bytes.{WriteGives};

    ghost taken = { λ s. Some s.taken };

    ghost faults = { λ s. s.faults };

    fn write(&mut self, piece: &[u8]) -> Result<usize, SinkFault>
        ensures gives { WriteGives self.old piece.now result self.new }

        ensures within { IfOk result (λ n. n ≤ length piece.now) }
        ensures goes_on { IfOk result (λ n. 0 < length piece.now → 0 < n) }
        ensures taken { IfOk result (λ n. Some self.new.taken ≡ extended (Some self.old.taken) (take n piece.now)) }
        ensures ok { OnOk result (self.new.faults ≡ self.old.faults) }
        ensures err { OnErr result (Some self.new.taken ≡ Some self.old.taken) }
        ensures later { self.old.faults ≤ self.new.faults }
        ensures rose { OnErr result (Rose self.old.faults self.new.faults) }
    {
        if self.fails(piece) {
            self.calls = self.calls.saturating_add(1);
            self.count = self.count.saturating_add(1);
            return Err(SinkFault);
        }
        let n = self.share(piece);
        self.calls = self.calls.saturating_add(1);
        self.bytes.extend_from_slice(&piece[..n]).unwrap();
        Ok(n)
    }
}
