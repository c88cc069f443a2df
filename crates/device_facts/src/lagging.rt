// What is done to the board as a node runs it, whose timers do their cycles once somebody looks at them.
ghost use Rattle.std.specs.Prelude.{◌≡◌, ◌<◌, ◌≤◌, ◌+◌, ◌^◌};
ghost use Rattle.air_base.specs.Bounds.{LAST_CYCLE};

use crate::answers::Answer;
use crate::board::HEARD;
use crate::numbers::{address, byte, cycle};
use avr_base::{StopCause, Vector};
use board_io::{LaggingBoard, OnAir};
use data_space::Bus;
use std::marker::Model;

/// The board, and the cycle at which it stands.
#[derive(Drop)]
pub struct NodeBoard {
    board: LaggingBoard,
    cycle: u64,
}

impl Model for NodeBoard {
    ghost use Rattle.std.specs.Prelude.{◌≡◌};
    ghost use Rattle.board_io.specs.declared.clocked.ClockedBoard.{ClockedBoard};

    ghost Value = { ClockedBoard };

    ghost view = { λ n. n.board };

    ghost invariant = { λ n. n.board.clock ≡ n.cycle };
}

impl NodeBoard {
    /// A board at reset, in cycle 0.
    pub fn new() -> Self {
        NodeBoard {
            board: LaggingBoard::new(512),
            cycle: 0,
        }
    }

    #[tactic(auto, using(board_io::proofs::Radio::put_clock))]
    fn put(&mut self, at: u16, b: u8) -> Result<(), StopCause> {
        self.board.put(at, b)
    }

    #[tactic(auto, using(board_io::proofs::Radio::get_clock))]
    fn get(&mut self, at: u16) -> Result<u8, StopCause> {
        self.board.get(at)
    }

    // One cycle; where the radio asks the air, it is answered.
    fn step(&mut self, arrival: Option<u8>) -> Answer
        requires { self.old.clock < LAST_CYCLE }
    {
        let at = self.cycle;
        let begun = self.board.begin(at, arrival);
        self.cycle = at + 1;
        if let OnAir::Asks = begun.air {
            self.board.answer(HEARD);
            return Answer::Asks;
        }
        match (begun.serial, begun.air) {
            (Some(b), _) => Answer::Came(at, b),
            (None, OnAir::Sent { byte }) => Answer::Sends(byte),
            (None, _) => Answer::Done,
        }
    }

    // The cycles up to this one, as a node passes them; no further than a byte that goes out or a sample.
    fn go(&mut self, to: u64) -> Answer
        requires { to < 2 ^ 32 }
    {
        for _ in self.cycle..to {
            if self.cycle >= to {
                break;
            }
            self.cycle += self.board.leap_up_to(to - self.cycle);
            if self.cycle >= to {
                break;
            }
            match self.step(None) {
                Answer::Done => {}
                event => return event,
            }
        }
        Answer::Done
    }

    fn enter(&mut self, word: u16) {
        self.board.entered(Vector { word });
    }
}

/// What a line does to the board as a node runs it, and its answer; `None` where it is none of the forms.
pub fn do_lagging(node: &mut NodeBoard, words: &[&str]) -> Option<Answer> {
    match words {
        ["new"] => {
            *node = NodeBoard::new();
            Some(Answer::Done)
        }
        ["put", at, b] => Some(Answer::of_put(node.put(u16::from(byte(at)?), byte(b)?))),
        ["get", at] => Some(Answer::of_get(node.get(u16::from(byte(at)?)))),
        ["to", c] => Some(node.go(cycle(c)?)),
        ["enter", word] => {
            node.enter(address(word)?);
            Some(Answer::Done)
        }
        ["lines"] => Some(Answer::Lines(node.board.lines().bits)),
        ["sleep"] => Some(Answer::Sleep(node.board.sleep_mode())),
        _ => None,
    }
}
