// The writing of a trace.
ghost use Rattle.std.specs.Prelude.{◌≡◌, ◌≤◌, OnOk, OnErr};
ghost use Rattle.sim_io.specs.Outside.{Rose, TookFront, extended};
ghost use Rattle.trace_writer.specs.Line.{rows_text};

use crate::line::{LINE, put_row};
use arrayvec::ArrayString;
use node_core::Row;
use sim_io::{Sink, SinkFault, make_room, write_all};

// Bytes that go to the sink at one call: large enough that the call's own cost does not show.
const PAGE: usize = 16384;

/// Writes the lines of `rows` in their order. At a fault a front of their text was taken, and the sink's count rose.
pub fn write<O: Sink>(rows: &[Row], sink: &mut O) -> Result<(), SinkFault>
    ensures taken { OnOk result (O.taken sink.new ≡ extended (O.taken sink.old) (rows_text rows.now)) }
    ensures ok { OnOk result (O.faults sink.new ≡ O.faults sink.old) }

    ensures front { OnErr result (TookFront (O.taken sink.old) (rows_text rows.now) (O.taken sink.new)) }
    ensures later { O.faults sink.old ≤ O.faults sink.new }
    ensures rose { OnErr result (Rose (O.faults sink.old) (O.faults sink.new)) }
{
    let mut page = ArrayString::<PAGE>::new();
    for row in rows {
        make_room(&mut page, LINE, sink)?;
        put_row(row, &mut page);
    }
    match write_all(sink, page.as_str().as_bytes()) {
        Ok(()) => Ok(()),
        Err(fault) => Err(fault),
    }
}
