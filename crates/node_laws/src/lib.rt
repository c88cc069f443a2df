//! Each node of a run has numbers within the bounds by which a saved node is refused, and is restored as itself. Each
//! law is the contract of a function that does nothing; it is about the definitions that the calls of a node are proved
//! to compute.
#![tactic(auto)]

ghost use Rattle.std.specs.Prelude.{◌≡◌, ℕ, ◌+◌, ◌<◌, ◌≤◌, List, Option, if◌then◌else◌};
ghost use Rattle.air_base.specs.Bounds.{LAST_CYCLE};
ghost use Rattle.air_base.specs.declared.bounds.TheConstants.{LONGEST_BYTE};
ghost use Rattle.board_io.specs.declared.board.Board.{Board};
ghost use Rattle.board_io.specs.Board.{clocked, reset_board};
ghost use Rattle.board_io.specs.Cycle.{board_answered, board_asks, board_begun, board_sends};
ghost use Rattle.board_io.specs.Lines.{entered_of};
ghost use Rattle.board_io.specs.Registers.{io_get, io_put};
ghost use Rattle.device_laws.specs.States.{IsBoard};
ghost use Rattle.node_core.specs.Cycle.{node_kind, sends_in};
ghost use Rattle.node_core.specs.State.{NodeState, reset};
ghost use Rattle.node_laws.specs.Node.{AreBytes, NodeWithin};
ghost use Rattle.node_laws.specs.Scenario.{IsSaved};
ghost use Rattle.node_laws.specs.Within.{BoardWithin, ByteWithin, HeardWithin, ReadWithin, WrittenWithin};
ghost use Rattle.node_runner.specs.Accepted.{IsAccepted};
ghost use Rattle.node_runner.specs.Scenario.{ScenarioOf, fleet_of};
ghost use Rattle.serial_ports.specs.Script.{ScriptBytes};
ghost use Rattle.air_base.specs.NodeKind.{ticked};
ghost use Rattle.world_core.specs.Order.{node_at};
ghost use Rattle.air_base.specs.declared.air.Heard.{Heard};

/// The numbers of a board are within their bounds after reset, and each call leaves them there: a read of a register,
/// which gives a byte; a write of a byte; serving an interrupt; and a whole cycle of the devices, by what a sample in
/// it hears. What the devices send is a byte.
pub fn board_law()
    ensures reset { (byte_time : ℕ) → BoardWithin 0 (reset_board byte_time) }
    ensures read { (t : ℕ) (b : Board) (at : ℕ) → IsBoard b → BoardWithin t b → ReadWithin t (io_get (clocked t b) at) }
    ensures write { (t : ℕ) (b : Board) (at x : ℕ) → at < 256 → x ≤ 255 → t < LAST_CYCLE → IsBoard b → BoardWithin t b
        → WrittenWithin t (io_put (clocked t b) at x) }
    ensures entry { (t word : ℕ) (b : Board) → BoardWithin t b → BoardWithin t (entered_of word b) }
    ensures cycle { (t : ℕ) (arrival : Option ℕ) (h : Heard) (b : Board) → t < LAST_CYCLE → HeardWithin h → IsBoard b → BoardWithin t b
        → BoardWithin (t + 1) (if board_asks t b then board_answered h (board_begun t arrival b) else board_begun t arrival b) }
    ensures sends { (t : ℕ) (b : Board) → t < LAST_CYCLE → IsBoard b → BoardWithin t b → ByteWithin (board_sends t b) }
{}

/// A node is within its bounds after reset, and after each cycle of it, whatever it executes and whatever it hears.
/// What it sends is a byte.
pub fn node_law()
    ensures reset { (k : ℕ) (flash : List ℕ) (script : ScriptBytes) (first last byte_time : ℕ) → AreBytes flash → byte_time ≤ LONGEST_BYTE
        → NodeWithin 0 (reset k flash script first last byte_time) }
    ensures cycle { (t : ℕ) (s : NodeState) (h : Heard) → t < LAST_CYCLE → HeardWithin h → NodeWithin t s
        → NodeWithin (t + 1) (ticked node_kind t s h) }
    ensures sends { (t : ℕ) (s : NodeState) → t < LAST_CYCLE → NodeWithin t s → ByteWithin (sends_in t s) }
{}

/// What is saved of a node of a run of accepted texts, at the beginning of any cycle, is accepted, and the node that is
/// restored from it is that node.
pub fn saved_law()
    ensures { (sc : ScenarioOf) (k c : ℕ) → IsAccepted sc → c ≤ sc.topo.limit
        → IsSaved sc k c (node_at (fleet_of sc) k c) }
{}
