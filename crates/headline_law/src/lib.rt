//! The headline in one clause: of the pure machine, and of the words and the record of running threads.
#![tactic(auto)]

ghost use Rattle.std.specs.Prelude.{◌≡◌, List, ℕ};
ghost use Rattle.std.specs.List.{All};
ghost use Rattle.atomic_table.specs.Table.{State};
ghost use Rattle.atomic_table.specs.Seated.{TableId};
ghost use Rattle.world_core.specs.declared.world.WorldFacts.{WorldFacts};
ghost use Rattle.world_core.specs.Lawful.{IsLawful};
ghost use Rattle.world_core.specs.Order.{facts_of, hears, world_at};
ghost use Rattle.world_core.specs.Steps.{opening};
ghost use Rattle.node_runner.specs.Scenario.{IsScenario, ScenarioOf, fleet_of};
ghost use Rattle.sync_core.specs.Moves.{IsForGood, Move, MayMoveAll, after_moves};
ghost use Rattle.neighbour_sync.specs.declared.rule.View.{View};
ghost use Rattle.neighbour_sync.specs.Record.{AirRecord};
ghost use Rattle.neighbour_sync.specs.Shows.{shown, AreShown};
ghost use Rattle.headline_law.specs.Running.{AreTaken, RunStep, Running, all_moves, first_running};

/// Of every scenario, whatever allowed raises, posts, samples and cuts come from the opening, in whatever order: each
/// recorded sample is what the node hears in that cycle of the single global order, and no later move alters it.
pub fn order_gives_each_sample()
    ensures order { (s : ScenarioOf) (moves : List Move) → IsScenario s → MayMoveAll (opening (facts_of (fleet_of s))) moves
        → All (λ x. x.1 ≡ hears (fleet_of s) x.0.cycle (world_at (fleet_of s) x.0.cycle) x.0.node) (after_moves (opening (facts_of (fleet_of s))) moves).samples }
    ensures for_good { (s : ScenarioOf) (moves : List Move) → IsScenario s → MayMoveAll (opening (facts_of (fleet_of s))) moves
        → All (IsForGood (after_moves (opening (facts_of (fleet_of s))) moves)) (after_moves (opening (facts_of (fleet_of s))) moves).samples }
{}

/// Whatever steps running threads take on words and record, in whatever order, each as the contract of its call lets it:
/// they are allowed moves of that machine, one for one or none, and words and record show the state that these lead to.
pub fn running_law()
    ensures shows { (w : WorldFacts) (z : TableId) (steps : List RunStep) (b : Running) → IsLawful w → AreTaken (first_running w z) steps b → AreShown b.words b.air b.clocks }
    ensures allowed { (w : WorldFacts) (z : TableId) (steps : List RunStep) (b : Running) → IsLawful w → AreTaken (first_running w z) steps b → MayMoveAll (opening w) (all_moves steps) }
    ensures state { (w : WorldFacts) (z : TableId) (steps : List RunStep) (b : Running) → IsLawful w → AreTaken (first_running w z) steps b → shown b.air b.clocks ≡ after_moves (opening w) (all_moves steps) }
{}

/// Of every scenario, whatever words and record show a state of that machine, as those of running threads do
/// (`running_law`): each recorded sample is what the node hears in that cycle of the single global
/// order, and no later move alters it.
pub fn order_gives_each_running_sample()
    ensures order { (s : ScenarioOf) (words : State (Unit {0}) View) (r : AirRecord) (clocks : List ℕ) → IsScenario s → r.world ≡ facts_of (fleet_of s) → AreShown words r clocks
        → All (λ x. x.1 ≡ hears (fleet_of s) x.0.cycle (world_at (fleet_of s) x.0.cycle) x.0.node) r.samples }
    ensures for_good { (words : State (Unit {0}) View) (r : AirRecord) (clocks : List ℕ) → AreShown words r clocks → All (IsForGood (shown r clocks)) r.samples }
{}
