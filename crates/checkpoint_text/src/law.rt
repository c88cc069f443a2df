// What holds of the bounds of a state's text.
ghost use Rattle.std.specs.Prelude.{ℕ};
ghost use Rattle.node_runner.specs.Scenario.{ScenarioOf};
ghost use Rattle.state_text.specs.Bounds.{HasNode};
ghost use Rattle.state_text.specs.Text.{NodeOf};
ghost use Rattle.checkpoint_text.specs.Onward.{IsFit};
ghost use Rattle.checkpoint_text.specs.State.{HasBytes, rules_of};

/// Each line of a node that can be restored keeps its bounds.
pub fn fit_law()
    ensures { (sc : ScenarioOf) (cycle : ℕ) (n : NodeOf) → IsFit cycle n → HasBytes n → HasNode (rules_of sc) cycle n }
{}
