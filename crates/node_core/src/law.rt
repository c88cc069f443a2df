// What the order of all nodes asks of a node.
ghost use Rattle.std.specs.Prelude.{◌≡◌};
ghost use Rattle.air_base.specs.NodeKind.{IsSteady};
ghost use Rattle.node_core.specs.State.{NodeState};
ghost use Rattle.node_core.specs.Cycle.{node_kind};

/// Of every state of a node: one that is stopped does nothing more, a cycle that samples sends nothing, the rows of a
/// cycle bear its number, and two sends lie at least the radio's byte time apart.
pub fn steady_law()
    ensures { (steady : IsSteady node_kind) × ((s : NodeState) → steady.gap s ≡ s.board.radio.byte_time) }
{}
