//! What each call of the devices keeps: the states that a board can be in after reset. Each law is the contract of a
//! function that does nothing; it is about the definitions that the calls of a board are proved to compute.
#![tactic(auto)]

ghost use Rattle.std.specs.Prelude.{◌≡◌, ℕ, ◌<◌, ◌≤◌, Ok, Option};
ghost use Rattle.air_base.specs.declared.bounds.TheConstants.{LONGEST_BYTE};
ghost use Rattle.board_io.specs.declared.board.Board.{Board};
ghost use Rattle.board_io.specs.declared.clocked.ClockedBoard.{ClockedBoard};
ghost use Rattle.board_io.specs.Board.{reset_board};
ghost use Rattle.board_io.specs.Cycle.{board_answered, board_begun, timers_leap};
ghost use Rattle.board_io.specs.Lines.{entered_of};
ghost use Rattle.board_io.specs.Registers.{io_get, io_put};
ghost use Rattle.device_laws.specs.States.{IsBoard};
ghost use Rattle.air_base.specs.declared.air.Heard.{Heard};

/// A board after reset is in such a state.
pub fn reset_law()
    ensures { (byte_time : ℕ) → byte_time ≤ LONGEST_BYTE → IsBoard (reset_board byte_time) }
{}

/// A read and a write of a register at any data address keep it, in whatever cycle.
pub fn access_law()
    ensures read { (c c' : ClockedBoard) (at x : ℕ) → IsBoard c.board → io_get c at ≡ Ok (x, c') → IsBoard c'.board }
    ensures write { (c c' : ClockedBoard) (at x : ℕ) → x < 256 → IsBoard c.board → io_put c at x ≡ Ok c' → IsBoard c'.board }
{}

/// A cycle of the devices keeps it, up to its sample and from it on, and so do many cycles of the timers at once.
pub fn cycle_law()
    ensures begun { (t : ℕ) (arrival : Option ℕ) (b : Board) → IsBoard b → IsBoard (board_begun t arrival b) }
    ensures answered { (h : Heard) (b : Board) → IsBoard b → IsBoard (board_answered h b) }
    ensures leapt { (t n : ℕ) (b : Board) → IsBoard b → IsBoard (timers_leap t n b) }
{}

/// Serving an interrupt keeps it.
pub fn entry_law()
    ensures { (word : ℕ) (b : Board) → IsBoard b → IsBoard (entered_of word b) }
{}
