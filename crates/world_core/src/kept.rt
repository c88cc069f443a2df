// The laws of a record that is cut, and of the test for whom a sample waits: each is the contract of a function that
// does nothing.
ghost use Rattle.std.specs.Prelude.{◌≡◌, ◌↔◌, ℕ, ◌≤◌, ◌<◌, ◌+◌, true, List, length};
ghost use Rattle.std.specs.List.{All};
ghost use Rattle.air_base.specs.declared.air.Send.{Send};
ghost use Rattle.world_core.specs.declared.world.WorldFacts.{WorldFacts};
ghost use Rattle.world_core.specs.Topology.{Topology, IsTopology, IsHearable, IsInside, is_needed};
ghost use Rattle.world_core.specs.Heard.{heard};
ghost use Rattle.world_core.specs.Posted.{posted, AllPostedFor};
ghost use Rattle.world_core.specs.Kept.{IsPosted, IsPostedTo, IsPart, gone_of, kept_room_of};
ghost use Rattle.world_core.specs.Lawful.{IsLawful};
ghost use Rattle.world_core.specs.Consistent.{AirState, IsConsistent};
ghost use Rattle.world_core.specs.Steps.{MayCut, after_cut};

/// How many cycles an epoch has. At the end of each the rows of a run are written and its record is cut.
pub const EPOCH: u64 = 262_144;

/// A sample waits for a node exactly where a cycle is heard in which its link was open.
pub fn needed_law()
    ensures { (t : Topology) (k j s : ℕ) → IsTopology t → (is_needed t k j s ≡ true) ↔ IsHearable t k j s }
{}

/// A cut keeps a state consistent.
pub fn cut_law()
    ensures { (a : AirState) (f : ℕ) → IsConsistent a → MayCut a f → IsConsistent (after_cut a f) }
{}

/// Of a kept record is heard what all posted sends give, at each sample from the floor on.
pub fn kept_law()
    ensures { (w : WorldFacts) (f : ℕ) (sent : List ℕ) (xs : List Send) (j s : ℕ) → IsLawful w → IsPosted w f sent xs → f ≤ s → AllPostedFor w sent j s
        → heard w.topo xs j s ≡ heard w.topo (posted w sent) j s }
{}

/// A kept record holds of each node its posted sends from a number on, and the sends before that are over at the floor.
pub fn part_law()
    ensures { (w : WorldFacts) (f : ℕ) (sent : List ℕ) (xs : List Send) → IsLawful w → IsPostedTo w f sent → IsPosted w f sent xs → IsPart w f (gone_of w f) sent xs }
{}

/// A kept record whose sends lie below its floor and an epoch is small.
pub fn room_law()
    ensures { (w : WorldFacts) (f epoch : ℕ) (sent : List ℕ) (xs : List Send) → IsLawful w → IsPosted w f sent xs → All (λ x. IsInside w.topo x.node x.cycle) xs → All (λ x. x.cycle < f + epoch) xs
        → length xs ≤ kept_room_of w.topo epoch }
{}
