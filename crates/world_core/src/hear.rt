// What a node hears that samples the air, with one send more.
ghost use Rattle.std.specs.Prelude.{◌≡◌};
ghost use Rattle.world_core.specs.Heard.{age_of};
ghost use Rattle.world_core.specs.HeardMore.{heard_with};

use crate::Topo;
use air_base::{Heard, Send};

// For how long the node has heard the send, in steps of 16 cycles.
fn age(topo: &Topo, send: &Send, node: u8, cycle: u64) -> u64
    ensures { result ≡ age_of topo.now node cycle send.now }
{
    cycle
        .saturating_sub(send.cycle)
        .saturating_sub(topo.latency_of(send.node, node))
        / 16
}

/// What node `node` hears in this cycle with one audible send more: the byte with its age, or a clash with what is
/// heard so far.
pub fn heard_with(topo: &Topo, so_far: Heard, send: &Send, node: u8, cycle: u64) -> Heard
    ensures { result ≡ heard_with (age_of topo.now node cycle) so_far send.now }
{
    if so_far.status == 0 {
        let age = age(topo, send, node, cycle);
        return Heard {
            status: 1,
            byte: send.byte,
            age: if age < 255 { age as u8 } else { 255 },
        };
    }
    Heard {
        status: 2,
        byte: so_far.byte | send.byte,
        age: 0,
    }
}
