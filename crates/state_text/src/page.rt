// A page of text in front of a sink.
ghost use Rattle.std.specs.Prelude.{◌≡◌, ◌+◌, ◌≤◌, ℕ, List, [], decimal, false, length, true};
ghost use Rattle.arrayvec.specs.ArrayString.{array_string_len};
ghost use Rattle.sim_io.specs.Digits.{hex2};
ghost use Rattle.state_text.specs.Writing.{HasRoom, IsPut, out, spaced};

use arrayvec::ArrayString;
use sim_io::{Sink, make_room, put_decimal, put_hex2};

// Bytes that go to the sink at one call: large enough that the call's own cost does not show.
const PAGE: usize = 16384;

// The room that each call asks for.
const PIECE: usize = 64;

/// Text on its way to a sink. After a fault nothing more goes there, and the page stays as it was.
#[derive(Drop)]
pub struct Page {
    /// What did not go to the sink yet.
    pub text: ArrayString<PAGE>,
    /// Whether the sink had a fault.
    pub failed: bool,
}

impl Page {
    /// An empty page.
    pub fn new() -> Page
        ensures text { result.text.bytes ≡ [] }
        ensures failed { result.failed ≡ false }
    {
        Page {
            text: ArrayString::new(),
            failed: false,
        }
    }

    // Makes room for a piece, unless there was a fault.
    fn has_room<O: Sink>(&mut self, sink: &mut O) -> bool
        ensures room { result ≡ true → array_string_len self.new.text + 64 ≤ 16384 }
        ensures yes { result ≡ true → HasRoom (out (O.taken sink.old) self.old.text.bytes self.old.failed (O.faults sink.old)) (out (O.taken sink.new) self.new.text.bytes self.new.failed (O.faults sink.new)) }
        ensures no { (text : List ℕ) → result ≡ false → IsPut text (out (O.taken sink.old) self.old.text.bytes self.old.failed (O.faults sink.old)) (out (O.taken sink.new) self.new.text.bytes self.new.failed (O.faults sink.new)) }
    {
        if self.failed {
            return false;
        }
        match make_room(&mut self.text, PIECE, sink) {
            Ok(()) => true,
            Err(_) => {
                self.failed = true;
                false
            }
        }
    }

    /// Appends a text of at most 64 bytes.
    pub fn put_text<O: Sink>(&mut self, text: &str, sink: &mut O)
        requires { length text.now ≤ 64 }
        ensures { IsPut text.now (out (O.taken sink.old) self.old.text.bytes self.old.failed (O.faults sink.old)) (out (O.taken sink.new) self.new.text.bytes self.new.failed (O.faults sink.new)) }
    {
        if !self.has_room(sink) {
            return;
        }
        self.text.push_str(text);
    }

    /// Appends a number behind a space.
    pub fn put_number<O: Sink>(&mut self, n: u64, sink: &mut O)
        ensures { IsPut (spaced (decimal n)) (out (O.taken sink.old) self.old.text.bytes self.old.failed (O.faults sink.old)) (out (O.taken sink.new) self.new.text.bytes self.new.failed (O.faults sink.new)) }
    {
        if !self.has_room(sink) {
            return;
        }
        self.text.push_str(" ");
        put_decimal(n, &mut self.text);
    }

    /// Appends a byte as two digits.
    pub fn put_byte<O: Sink>(&mut self, byte: u8, sink: &mut O)
        ensures { IsPut (hex2 byte) (out (O.taken sink.old) self.old.text.bytes self.old.failed (O.faults sink.old)) (out (O.taken sink.new) self.new.text.bytes self.new.failed (O.faults sink.new)) }
    {
        if !self.has_room(sink) {
            return;
        }
        put_hex2(byte, &mut self.text);
    }
}
