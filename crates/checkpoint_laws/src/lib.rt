//! A saved state goes on as if the run had never stopped. Each law is the contract of a function that does nothing; it
//! is about the definitions that the calls for saving a run and for going on from what was saved are proved to compute.
#![tactic(auto)]

ghost use Rattle.std.specs.Prelude.{◌≡◌, ℕ, ◌+◌, ◌<◌, ◌≤◌, ◌++◌, List, sum, true};
ghost use Rattle.world_core.specs.Order.{node_at, run_rows, world_at};
ghost use Rattle.node_runner.specs.Accepted.{IsAccepted};
ghost use Rattle.node_runner.specs.Scenario.{ScenarioOf, fleet_of};
ghost use Rattle.checkpoint_laws.specs.Chain.{rows_behind, saved_behind};
ghost use Rattle.checkpoint_text.specs.NodeOf.{node_of};
ghost use Rattle.checkpoint_text.specs.Onward.{onward, saved_node};
ghost use Rattle.checkpoint_text.specs.State.{counts_fit, rules_of, saved_at};
ghost use Rattle.state_text.specs.Bounds.{IsState, is_cut};

/// What is saved of a run of accepted texts at a cycle is each node as it is then, and the rows of the whole run are
/// those of the cycles before it and then those of the run that goes on from what was saved.
pub fn onward_law()
    ensures nodes { (sc : ScenarioOf) (c k : ℕ) → IsAccepted sc → c ≤ sc.topo.limit → k < sc.topo.nodes
        → node_of sc k (saved_node (saved_at sc c) k) ≡ node_at (fleet_of sc) k c }
    ensures rows { (sc : ScenarioOf) (c : ℕ) → IsAccepted sc → c ≤ sc.topo.limit
        → run_rows (fleet_of sc) ≡ (world_at (fleet_of sc) c).rows ++ run_rows (onward sc (saved_at sc c)) }
{}

/// Of a run of accepted texts, states saved one behind another, each of the run onward from the one before, end with the
/// state that one save of the run gives then; and the rows of the run up to there are those up to the first one, and then
/// those of the runs onward from one to the next.
pub fn chain_law()
    ensures states { (sc : ScenarioOf) (c : ℕ) (ns : List ℕ) → IsAccepted sc → c + sum ns ≤ sc.topo.limit → saved_behind sc (saved_at sc c) ns ≡ saved_at sc (c + sum ns) }
    ensures rows { (sc : ScenarioOf) (c : ℕ) (ns : List ℕ) → IsAccepted sc → c + sum ns ≤ sc.topo.limit
        → (world_at (fleet_of sc) (c + sum ns)).rows ≡ (world_at (fleet_of sc) c).rows ++ rows_behind sc (saved_at sc c) ns }
{}

/// What is saved of a run of accepted texts at the end of an epoch below the limit keeps each bound of a state's text,
/// so that it is accepted.
pub fn accepted_law()
    ensures { (sc : ScenarioOf) (c : ℕ) → IsAccepted sc → is_cut sc.topo c ≡ true → IsState (rules_of sc) (saved_at sc c) }
{}

/// Of a run of accepted texts, and of the run onward from what is saved of it at a cycle, no node executes more
/// instructions than a state can say.
pub fn counted_law()
    ensures { (sc : ScenarioOf) (c d : ℕ) → IsAccepted sc → c ≤ d → d ≤ sc.topo.limit → counts_fit (onward sc (saved_at sc c)) d ≡ true }
{}
