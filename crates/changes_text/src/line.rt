// The line of a change.
ghost use Rattle.std.specs.Prelude.{◌≡◌, ◌+◌, ◌≤◌, ◌++◌};
ghost use Rattle.arrayvec.specs.ArrayString.{array_string_len};
ghost use Rattle.changes_text.specs.Line.{change_line, seen_text};

use arrayvec::ArrayString;
use node_places::{Change, Seen};
use sim_io::{put_decimal, put_hex2, put_hex4};

/// How many bytes the longest line has at most.
pub const LINE: usize = 64;

// Appends what stands behind the cycle and the node.
#[tactic(auto, unfolding(crate::specs::Line::seen_text))]
fn put_seen<const N: usize>(seen: Seen, page: &mut ArrayString<N>)
    requires { array_string_len page.old + 12 ≤ N }
    ensures bytes { page.new.bytes ≡ page.old.bytes ++ seen_text seen }
    ensures len { array_string_len page.new ≤ array_string_len page.old + 12 }
{
    match seen {
        Seen::Byte { address, byte } => {
            page.push_str("byte ");
            put_hex4(address, page);
            page.push_str(" ");
            put_hex2(byte, page);
        }
        Seen::At { address } => {
            page.push_str("at ");
            put_hex4(address, page);
        }
    }
}

/// Appends the line of a change, its end included.
#[tactic(auto, unfolding(crate::specs::Line::change_line))]
pub fn put_change<const N: usize>(change: &Change, page: &mut ArrayString<N>)
    requires { array_string_len page.old + LINE ≤ N }
    ensures bytes { page.new.bytes ≡ page.old.bytes ++ change_line change.now }
    ensures len { array_string_len page.new ≤ array_string_len page.old + LINE }
{
    put_decimal(change.cycle, page);
    page.push_str(" ");
    put_decimal(change.node, page);
    page.push_str(" ");
    put_seen(change.seen, page);
    page.push_str("\n");
}
