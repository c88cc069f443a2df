// The call.
use crate::held::Held;
use crate::starved::Starved;
use commands::{avrora, avrora_alone};
use fleet_threads::OpenGate;
use memory_io::MemSink;
use std::alloc::{AllocError, Global};
use std::sync::Wait;
use std::thread::Threads;

// More than a stream of any stored run takes.
const AMPLE: usize = 2_000_000;

/// A stream in memory: how many bytes it takes in all and at one call, and which of its calls fail, from 0.
#[derive(Drop)]
pub struct Stream {
    /// Bytes in all.
    pub room: usize,
    /// Bytes at one call.
    pub step: usize,
    /// The numbers of the calls that fail.
    pub fail: Vec<u64>,
}

impl Stream {
    /// A stream that takes all, and of which no call fails.
    pub fn ample(alloc: Global) -> Self {
        Stream {
            room: AMPLE,
            step: AMPLE,
            fail: Vec::new(alloc),
        }
    }

    fn sink(&self, alloc: Global) -> Result<MemSink, AllocError> {
        let fail = Vec::from_slice(alloc, self.fail.as_slice())?;
        match MemSink::new(alloc, self.room, self.step, fail) {
            Ok(sink) => Ok(sink),
            Err(_) => Err(AllocError),
        }
    }
}

/// Where a call's outside fails: which reads, from 0, and its two streams.
#[derive(Drop)]
pub struct Faults {
    /// The numbers of the reads that fail.
    pub reads: Vec<u64>,
    /// The output.
    pub out: Stream,
    /// The error stream.
    pub err: Stream,
}

impl Faults {
    /// An outside that fails nowhere.
    pub fn none(alloc: Global) -> Self {
        Faults {
            reads: Vec::new(alloc),
            out: Stream::ample(alloc),
            err: Stream::ample(alloc),
        }
    }
}

/// What a call came to.
#[derive(Drop)]
pub struct Outcome {
    /// Its status.
    pub status: u8,
    /// What the output took.
    pub out: MemSink,
    /// What the error stream took.
    pub err: MemSink,
}

/// Whether two calls came to the same status, and wrote the same to both streams.
pub fn are_same(one: &Outcome, other: &Outcome) -> bool {
    one.status == other.status
        && one.out.taken() == other.out.taken()
        && one.err.taken() == other.err.taken()
}

/// Makes a call with these words over what is held, on one thread. It fails where there is no memory for the store and
/// the streams.
pub fn called(
    alloc: Global,
    words: &[&str],
    held: &Held,
    faults: &Faults,
) -> Result<Outcome, AllocError> {
    let mut store = held.store(alloc, faults.reads.as_slice())?;
    let mut out = faults.out.sink(alloc)?;
    let mut err = faults.err.sink(alloc)?;
    let status = avrora_alone(alloc, words, &mut store, &mut out, &mut err);
    Ok(Outcome {
        status: status.number(),
        out,
        err,
    })
}

/// Makes a call with these words where no file gets memory. It fails where there is none for the streams.
pub fn called_without_memory(alloc: Global, words: &[&str]) -> Result<Outcome, AllocError> {
    let mut store = Starved;
    let mut out = Stream::ample(alloc).sink(alloc)?;
    let mut err = Stream::ample(alloc).sink(alloc)?;
    let status = avrora_alone(alloc, words, &mut store, &mut out, &mut err);
    Ok(Outcome {
        status: status.number(),
        out,
        err,
    })
}

/// Makes a call with these words over what is held, with the nodes of `run` and `make` on threads of their own. It
/// fails where there is no memory for the store and the streams.
pub fn called_on_threads<R: Threads + Wait + AllocGlobal + Sync>(
    rt: &R,
    words: &[&str],
    held: &Held,
    faults: &Faults,
) -> Result<Outcome, AllocError> {
    let alloc = rt.alloc();
    let mut store = held.store(alloc, faults.reads.as_slice())?;
    let mut out = faults.out.sink(alloc)?;
    let mut err = faults.err.sink(alloc)?;
    let status = avrora(rt, alloc, words, &mut store, &mut out, &mut err, &OpenGate);
    Ok(Outcome {
        status: status.number(),
        out,
        err,
    })
}
