// The single global order of cycles: what all nodes of a network do, cycle by cycle and node by node, from any moment
// on. It is stated over any kind of node; `specs/Order` is the definition. Each law is the contract of a function that
// does nothing.
ghost use Rattle.std.specs.Prelude.{◌≡◌, ℕ, ◌+◌, ◌≤◌};
ghost use Rattle.world_core.specs.Lawful.{IsLawful};
ghost use Rattle.world_core.specs.Settled.{truth};
ghost use Rattle.world_core.specs.Order.{Fleet, facts_of, hears, world_after, world_at, resumed};
ghost use Rattle.world_core.specs.Sound.{IsSound};
ghost use Rattle.world_core.specs.Resumed.{GoesOn};

/// The sends and samples of a whole run keep the laws of a world of the air.
pub fn lawful_law<S, R>()
    ensures { (f : Fleet S R) → IsSound f → IsLawful (facts_of f) }
{}

/// What a node hears in a cycle of the order is what all sends of the whole run give it: no later send changes it.
pub fn truth_law<S, R>()
    ensures { (f : Fleet S R) (k t : ℕ) → IsSound f → f.start ≤ t → t ≤ f.topo.limit → hears f t (world_at f t) k ≡ truth (facts_of f) k t }
{}

/// A run that begins again in a moment of the order goes on as if it had never stopped.
pub fn resumption_law<S, R>()
    ensures { (f : Fleet S R) (m n : ℕ) → GoesOn (world_after f m) (world_after (resumed f (f.start + m) (world_after f m)) n) (world_after f (m + n)) }
{}
