// What the order of all nodes says of a scenario.
ghost use Rattle.std.specs.Prelude.{◌≡◌, ℕ, ◌≤◌};
ghost use Rattle.world_core.specs.Settled.{truth};
ghost use Rattle.world_core.specs.Sound.{IsSound};
ghost use Rattle.world_core.specs.Order.{facts_of, hears, world_at};
ghost use Rattle.node_runner.specs.Scenario.{ScenarioOf, IsScenario, fleet_of};

/// The nodes of a scenario keep what the laws of the global order ask. So what a node hears in a cycle of that order is
/// what all sends of the whole run give, which is what `Runner::answer` asks for and what the record of the air keeps.
pub fn order_law()
    ensures sound { (s : ScenarioOf) → IsScenario s → IsSound (fleet_of s) }
    ensures heard { (s : ScenarioOf) (k t : ℕ) → IsScenario s → t ≤ s.topo.limit → hears (fleet_of s) t (world_at (fleet_of s) t) k ≡ truth (facts_of (fleet_of s)) k t }
{}
