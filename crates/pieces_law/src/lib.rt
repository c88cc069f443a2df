//! A run that is saved and resumed writes what the whole run writes. Each law is the contract of a function that does
//! nothing; it is about the definitions that a call of the program is proved to compute.
#![tactic(auto)]

ghost use Rattle.std.specs.Prelude.{◌≡◌, ◌++◌, ℕ, List, Some};
ghost use Rattle.command_words.specs.Words.{MonitorSpan, Node, asked_by};
ghost use Rattle.command_plans.specs.Reading.{Accepted, Accepts, Files, verdict};
ghost use Rattle.commands.specs.Network.{lone_node};
ghost use Rattle.commands.specs.Plan.{network_plan, plan, span_plan, up_to_plan};
ghost use Rattle.ihex_loader.specs.Flash.{Image};
ghost use Rattle.node_runner.specs.Accepted.{IsAccepted};
ghost use Rattle.node_runner.specs.Scenario.{IsScenario, ScenarioOf, with_script};
ghost use Rattle.sample_maker.specs.Sample.{sample};
ghost use Rattle.serial_ports.specs.Script.{ScriptBytes};
ghost use Rattle.pieces_law.specs.Pieces.{AreInTurn, AreOneSave, AreThePieces, IsInPieces};

/// Every network that a call runs is a scenario: one that a command has accepted, `watch` too, which accepted texts give;
/// the same with the window of `monitor FILE FROM TO`, and with what a move of `sweep` says arrives at a node; that of
/// `node`, whatever its image; that of `make`. So what the laws of the order and of saved states ask for holds of it.
pub fn network_law()
    ensures texts { (files : Files) (file : List ℕ) (network : ScenarioOf) → verdict files (network_plan file) ≡ Accepted network → IsAccepted network }
    ensures scenario { (files : Files) (file : List ℕ) (network : ScenarioOf) → verdict files (network_plan file) ≡ Accepted network → IsScenario network }
    ensures watched { (files : Files) (file : List ℕ) (to : ℕ) (network : ScenarioOf) → verdict files (up_to_plan file to) ≡ Accepted network → IsAccepted network }
    ensures alone { (words : List (List ℕ)) (file : List ℕ) (cycles : ℕ) (flash : Image) → asked_by words ≡ Some (Node file cycles)
        → IsScenario (lone_node flash cycles) }
    ensures sample { (number : ℕ) → IsScenario (sample number 8) }
    ensures span { (files : Files) (words : List (List ℕ)) (file : List ℕ) (from to : ℕ) (network : ScenarioOf) → asked_by words ≡ Some (MonitorSpan file from to)
        → verdict files (span_plan file from to) ≡ Accepted network → IsScenario network }
    ensures moved { (network : ScenarioOf) (node : ℕ) (script : ScriptBytes) → IsScenario network → IsScenario (with_script network node script) }
{}

/// Where `save FILE N` is accepted, so are `head FILE N` and `run FILE`, and `resume FILE STATE` over what `save` wrote,
/// which is not too long. What `head` writes and then what `resume` writes is what `run` writes.
pub fn pieces_law()
    ensures pieces { (files later : Files) (head save resume run : List (List ℕ)) (calls : IsInPieces files later head save resume run)
        → AreThePieces files later head save resume run calls.saved }
    // whatever these calls are accepted with
    ensures joined { (files later : Files) (head save resume run : List (List ℕ)) (first rest whole : List ℕ) → IsInPieces files later head save resume run
        → Accepts files (plan head) first → Accepts later (plan resume) rest → Accepts files (plan run) whole
        → first ++ rest ≡ whole }
{}

/// Where `save FILE N` and `save FILE L` are accepted, L being N and M, so are `save FILE M STATE` and `head FILE M STATE`
/// over what the first one wrote, and `look` at the end of the L epochs. That `save` and that `look` write what `save FILE
/// L` writes: by `pieces_law`, what `resume` takes.
pub fn saves_law()
    ensures { (files later : Files) (first next more whole look : List (List ℕ)) (calls : AreInTurn files later first next more whole look)
        → AreOneSave files later next more look calls.last }
{}
