// The writing of changes.
ghost use Rattle.std.specs.Prelude.{◌≡◌, ◌≤◌, OnOk, OnErr};
ghost use Rattle.sim_io.specs.Outside.{Rose, TookFront, extended};
ghost use Rattle.changes_text.specs.Line.{changes_text};

use crate::line::{LINE, put_change};
use arrayvec::ArrayString;
use node_places::Change;
use sim_io::{Sink, SinkFault, make_room, write_all};

// Bytes that go to the sink at one call: large enough that the call's own cost does not show.
const PAGE: usize = 16384;

/// Writes the lines of `changes` in their order. At a fault a front of their text was taken, and the sink's count rose.
pub fn write<O: Sink>(changes: &[Change], sink: &mut O) -> Result<(), SinkFault>
    ensures taken { OnOk result (O.taken sink.new ≡ extended (O.taken sink.old) (changes_text changes.now)) }
    ensures ok { OnOk result (O.faults sink.new ≡ O.faults sink.old) }

    ensures front { OnErr result (TookFront (O.taken sink.old) (changes_text changes.now) (O.taken sink.new)) }
    ensures later { O.faults sink.old ≤ O.faults sink.new }
    ensures rose { OnErr result (Rose (O.faults sink.old) (O.faults sink.new)) }
{
    let mut page = ArrayString::<PAGE>::new();
    for change in changes {
        make_room(&mut page, LINE, sink)?;
        put_change(change, &mut page);
    }
    match write_all(sink, page.as_str().as_bytes()) {
        Ok(()) => Ok(()),
        Err(fault) => Err(fault),
    }
}
