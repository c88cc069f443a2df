// Which node takes the next step.
ghost use Rattle.std.specs.Prelude.{◌≡◌, ◌<◌, ◌≤◌, true, length};
ghost use Rattle.node_core.specs.Cycle.{node_kind};
ghost use Rattle.fleet_flight.specs.Turns.{IsLow, IsTurn, is_live};

use node_core::Node;

/// A live node that may take a step, and a cycle that no live node is below.
#[derive(Clone, Copy)]
pub struct Turn {
    pub number: usize,
    pub low: u64,
}

// Whether the node can go on before the cycle `end`, or waits for an answer.
fn is_live(node: &Node, end: u64) -> bool
    ensures { result ≡ is_live node_kind end node.now }
{
    node.asking() || (node.stopped().is_none() && node.cycle() < end)
}

/// The live node with the lowest cycle.
pub fn behind(nodes: &[Node], end: u64, ahead: u64) -> Option<Turn>
    requires { 1 ≤ ahead }
    ensures { IsTurn node_kind end ahead nodes.now result }
{
    let mut found = false;
    let mut best = 0;
    let mut lowest = 0;
    for k in 0..nodes.len() {
        let node = &nodes[k];
        if is_live(node, end) && (!found || node.cycle() < lowest) {
            found = true;
            best = k;
            lowest = node.cycle();
        }
    }
    if found {
        Some(Turn {
            number: best,
            low: lowest,
        })
    } else {
        None
    }
}

/// The turn behind this one, whose node has taken a step: it goes on while it is not too far ahead of the others, so
/// that they need not be asked after each step.
pub fn next_turn(nodes: &[Node], end: u64, ahead: u64, turn: Turn) -> Option<Turn>
    requires some { 1 ≤ ahead }
    requires within { turn.number < length nodes.now }
    requires low { IsLow node_kind end turn.low nodes.now }
    ensures { IsTurn node_kind end ahead nodes.now result }
{
    let node = &nodes[turn.number];
    if is_live(node, end) && node.cycle().saturating_sub(turn.low) < ahead {
        Some(turn)
    } else {
        behind(nodes, end, ahead)
    }
}
