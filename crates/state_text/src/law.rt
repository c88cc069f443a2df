// What holds of the text of every state.
ghost use Rattle.std.specs.Prelude.{◌≡◌, ℕ, List, Ok};
ghost use Rattle.state_text.specs.Bounds.{IsState, Rules};
ghost use Rattle.state_text.specs.Reading.{state_of};
ghost use Rattle.state_text.specs.Text.{StateOf, state_text};
ghost use Rattle.world_core.specs.Topology.{IsTopology};

/// What is written of a state is read as that state.
pub fn again_law()
    ensures { (r : Rules) (st : StateOf) → IsTopology r.topo → IsState r st → state_of r (state_text st) ≡ Ok st }
{}

/// What is read as a state keeps its bounds, and is what would be written of it: each state has one spelling.
pub fn spelling_law()
    ensures { (r : Rules) (text : List ℕ) (st : StateOf) → IsTopology r.topo → state_of r text ≡ Ok st → IsState r st × (text ≡ state_text st) }
{}
