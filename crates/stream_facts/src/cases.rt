// What a case comes to.
use crate::halting::{Halting, Turn};
use crate::reading::{Asked, Case};
use arrayvec::ArrayString;
use memory_io::{MemSink, MemStore};
use sim_io::{
    DirStore, Name, ReadFault, Sink, SinkFault, StdSink, Store, make_room, read_whole, write_all,
};
use std::alloc::Global;
use std::fs::{self, Files};
use stored_cases::Failed;

// A line of an answer and, behind a space, a text that is not empty; one that ends with LF has no other.
fn answer<O: Sink>(what: &str, text: &[u8], out: &mut O) -> Result<(), Failed> {
    write_all(out, what.as_bytes())?;
    if !text.is_empty() {
        write_all(out, b" ")?;
        write_all(out, text)?;
    }
    if !text.ends_with(b"\n") {
        write_all(out, b"\n")?;
    }
    Ok(())
}

fn write_read<O: Sink>(read: &Result<Vec<u8>, ReadFault>, out: &mut O) -> Result<(), Failed> {
    match read {
        Ok(bytes) => answer("ok", bytes.as_slice(), out),
        Err(ReadFault::Failed) => Ok(write_all(out, b"Failed\n")?),
        Err(ReadFault::TooLong) => Ok(write_all(out, b"TooLong\n")?),
        Err(ReadFault::NoMemory) => Ok(write_all(out, b"NoMemory\n")?),
    }
}

fn write_taken<O: Sink>(
    wrote: Result<(), SinkFault>,
    taken: &[u8],
    out: &mut O,
) -> Result<(), Failed> {
    match wrote {
        Ok(()) => answer("ok", taken, out),
        Err(SinkFault) => answer("fault", taken, out),
    }
}

fn name(alloc: Global, text: &str) -> Result<Name, Failed> {
    match Name::new(alloc, text) {
        Ok(name) => Ok(name),
        Err(_) => Err(Failed),
    }
}

// The files `a.hex`, of three bytes, and `empty`.
fn two_files(alloc: Global, fail: &[u64]) -> Result<MemStore, Failed> {
    let mut files = Vec::new(alloc);
    files.push((name(alloc, "a.hex")?, Vec::from_slice(alloc, b":00")?))?;
    files.push((name(alloc, "empty")?, Vec::new(alloc)))?;
    Ok(MemStore::new(files, Vec::from_slice(alloc, fail)?))
}

fn do_reads<S: Store, O: Sink>(
    alloc: Global,
    store: &mut S,
    asked: &[Asked<'_>],
    out: &mut O,
) -> Result<(), Failed> {
    for it in asked {
        let read = store.read(alloc, it.name, it.most);
        write_read(&read, out)?;
    }
    Ok(())
}

fn sink_of(alloc: Global, numbers: &[u64]) -> Result<MemSink, Failed> {
    let [room, step, fail @ ..] = numbers else {
        return Err(Failed);
    };
    let room = usize::try_from(*room).unwrap_or(0);
    let step = usize::try_from(*step).unwrap_or(0);
    match MemSink::new(alloc, room, step, Vec::from_slice(alloc, fail)?) {
        Ok(sink) => Ok(sink),
        Err(_) => Err(Failed),
    }
}

fn do_sink<O: Sink>(alloc: Global, numbers: &[u64], text: &str, out: &mut O) -> Result<(), Failed> {
    let mut sink = sink_of(alloc, numbers)?;
    let wrote = write_all(&mut sink, text.as_bytes());
    write_taken(wrote, sink.taken(), out)
}

// A page of four bytes, of which each number asks for so much room, over a sink that takes four at a call.
fn do_page<O: Sink>(alloc: Global, rooms: &[u64], text: &str, out: &mut O) -> Result<(), Failed> {
    let mut sink = sink_of(alloc, &[4, 4])?;
    let mut page = ArrayString::<4>::new();
    if page.try_push_str(text).is_err() {
        return Err(Failed);
    }
    for room in rooms {
        let room = usize::try_from(*room).unwrap_or(0).min(4);
        make_room(&mut page, room, &mut sink)?;
        answer("page", page.as_str().as_bytes(), out)?;
        answer("taken", sink.taken(), out)?;
    }
    Ok(())
}

fn do_device<R: Files, O: Sink>(rt: &R, name: &str, text: &str, out: &mut O) -> Result<(), Failed> {
    let Ok(file) = fs::create(rt, name) else {
        return Err(Failed);
    };
    let mut sink = StdSink::new(file);
    let wrote = write_all(&mut sink, text.as_bytes());
    write_taken(wrote, b"", out)
}

fn do_stream<O: Sink>(
    alloc: Global,
    step: usize,
    turns: &[Turn],
    text: &str,
    out: &mut O,
) -> Result<(), Failed> {
    let mut writer = Halting::new(Vec::<u8>::new(alloc), step, turns);
    let wrote = {
        let mut sink = StdSink::new(&mut writer);
        write_all(&mut sink, text.as_bytes())
    };
    write_taken(wrote, writer.inner().as_slice(), out)
}

/// Does what a case asks for, and writes what comes of it.
pub fn do_case<R: Files + AllocGlobal, O: Sink>(
    rt: &R,
    case: &Case<'_>,
    out: &mut O,
) -> Result<(), Failed> {
    let alloc = rt.alloc();
    match case {
        Case::Store(fail, asked) => {
            let mut store = two_files(alloc, fail.as_slice())?;
            do_reads(alloc, &mut store, asked.as_slice(), out)
        }
        Case::Sink(numbers, text) => do_sink(alloc, numbers.as_slice(), text, out),
        Case::Page(rooms, text) => do_page(alloc, rooms.as_slice(), text, out),
        Case::File(asked) => do_reads(alloc, &mut DirStore::new(rt), &[*asked], out),
        Case::Device(name, text) => do_device(rt, name, text, out),
        Case::Stream(step, turns, text) => do_stream(alloc, *step, turns.as_slice(), text, out),
        Case::Source(step, most, turns, text) => {
            let reader = Halting::new(text.as_bytes(), *step, turns.as_slice());
            write_read(&read_whole(alloc, reader, *most), out)
        }
    }
}
