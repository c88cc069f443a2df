// A page of text on its way to a sink.
ghost use Rattle.std.specs.Prelude.{◌≡◌, ◌+◌, ◌<◌, ◌≤◌, OnOk, OnErr};
ghost use Rattle.arrayvec.specs.ArrayString.{array_string_len};
ghost use Rattle.sim_io.specs.Outside.{Moved, Rose, TookFront};

use crate::{Sink, SinkFault, write_all};
use arrayvec::ArrayString;

/// Makes sure that `room` more bytes fit on the page: a page with less room is sent to the sink and cleared. At a
/// fault a front of the page was taken, and the page stays as it was.
pub fn make_room<const N: usize, O: Sink>(
    page: &mut ArrayString<N>,
    room: usize,
    sink: &mut O,
) -> Result<(), SinkFault>
    requires { room ≤ N }

    ensures moved { OnOk result (Moved (O.taken sink.old) page.old.bytes (O.taken sink.new) page.new.bytes) }
    ensures room { OnOk result (array_string_len page.new + room ≤ N) }
    ensures ok { OnOk result (O.faults sink.new ≡ O.faults sink.old) }

    ensures front { OnErr result (TookFront (O.taken sink.old) page.old.bytes (O.taken sink.new)) }
    ensures kept { OnErr result (page.new.bytes ≡ page.old.bytes) }
    ensures full { OnErr result (N < array_string_len page.old + room) }
    ensures later { O.faults sink.old ≤ O.faults sink.new }
    ensures rose { OnErr result (Rose (O.faults sink.old) (O.faults sink.new)) }
{
    if page.remaining_capacity() >= room {
        return Ok(());
    }
    match write_all(sink, page.as_str().as_bytes()) {
        Ok(()) => {
            page.clear();
            Ok(())
        }
        Err(fault) => Err(fault),
    }
}
