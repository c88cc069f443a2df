// What a node hears that samples the air, told send by send.
ghost use Rattle.std.specs.Prelude.{◌≡◌, ◌<◌};
ghost use Rattle.std.specs.List.{All};
ghost use Rattle.world_core.specs.Topology.{IsInside};
ghost use Rattle.world_core.specs.Heard.{heard, is_audible};

use air_base::{Heard, Send};
use world_core::{Topo, heard_with};

// Whether the node hears the send in this cycle.
fn hears(topo: &Topo, send: &Send, node: u8, cycle: u64) -> bool
    requires { send.now.cycle < topo.now.limit }
    ensures { result ≡ is_audible topo.now node cycle send.now }
{
    let first = send.cycle + topo.latency_of(send.node, node);
    topo.linked(send.node, node)
        && topo.is_open(send.node, node, send.cycle)
        && first <= cycle
        && cycle < first + topo.byte_time()
}

/// What node `node` hears in this cycle of these sends, in any order: nothing, or one byte with its age, or a clash.
/// A send of a node that it hears is audible from the latency on, for the byte time. It takes no memory.
pub fn heard_of(topo: &Topo, sends: &[Send], node: u8, cycle: u64) -> Heard
    requires { All (λ x. IsInside topo.now x.node x.cycle) sends.now }
    ensures { result ≡ heard topo.now sends.now node cycle }
{
    let mut so_far = Heard {
        status: 0,
        byte: 0,
        age: 0,
    };
    for send in sends {
        if hears(topo, send, node, cycle) {
            so_far = heard_with(topo, so_far, send, node, cycle);
        }
    }
    so_far
}
