// What follows from the definitions alone.
ghost use Rattle.std.specs.Prelude.{◌≡◌};
ghost use Rattle.node_runner.specs.Scenario.{ScenarioOf, fleet_of};
ghost use Rattle.run_reports.specs.Frames.{sends_told};
ghost use Rattle.world_core.specs.Order.{facts_of, run_rows};

/// The sends that the rows of a whole run tell are the sends of its air, in their order.
pub fn sends_law()
    ensures { (network : ScenarioOf) → sends_told (run_rows (fleet_of network)) ≡ (facts_of (fleet_of network)).sends }
{}
