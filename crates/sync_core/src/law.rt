// The laws of the machine over any world, whatever its limit, and with cuts.
ghost use Rattle.std.specs.Prelude.{List, ℕ, ◌<◌, ◌≤◌};
ghost use Rattle.std.specs.List.{All, Contains};
ghost use Rattle.world_core.specs.declared.world.WorldFacts.{WorldFacts};
ghost use Rattle.world_core.specs.Lawful.{IsLawful};
ghost use Rattle.world_core.specs.Consistent.{AirState, IsConsistent, clock_of};
ghost use Rattle.world_core.specs.Steps.{opening, MaySample};
ghost use Rattle.sync_core.specs.Going.{IsFurthestBehind, MayGoOn};
ghost use Rattle.sync_core.specs.Moves.{Move, MayMoveAll, after_moves, IsForGood};

/// Whatever allowed raises, posts, samples and cuts of the record come, in any order and in any world of up to 2^40
/// cycles: the state is consistent, so each recorded sample has the true answer, and no later move alters it.
pub fn any_order_law()
    ensures consistent { (w : WorldFacts) (moves : List Move) → IsLawful w → MayMoveAll (opening w) moves → IsConsistent (after_moves (opening w) moves) }
    ensures for_good { (w : WorldFacts) (moves : List Move) → IsLawful w → MayMoveAll (opening w) moves → All (IsForGood (after_moves (opening w) moves)) (after_moves (opening w) moves).samples }
    ensures keeps { (a : AirState) (moves : List Move) → IsConsistent a → MayMoveAll a moves → IsConsistent (after_moves a moves) }
    ensures from_any { (a : AirState) → IsConsistent a → All (IsForGood a) a.samples }
{}

/// Nobody is stuck. In every consistent state the node that is furthest behind may take a sample in the cycle of its
/// clock, where the world has one and the record was not cut past it; and each node whose clock is below the limit may
/// raise it by a cycle, at once or behind its next send.
pub fn never_stuck_law()
    ensures sample { (a : AirState) (j : ℕ) → IsConsistent a → IsFurthestBehind a j → Contains a.world.asks record { node = j; cycle = clock_of a.clocks j } → a.floor ≤ clock_of a.clocks j → MaySample a j (clock_of a.clocks j) }
    ensures goes_on { (a : AirState) (k : ℕ) → IsConsistent a → k < a.world.topo.nodes → clock_of a.clocks k < a.world.topo.limit → MayGoOn a k }
{}
