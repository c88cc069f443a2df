// A board once more.
ghost use Rattle.std.specs.Prelude.{◌≡◌};

use crate::{Board, ClockedBoard, LaggingBoard};

impl Board {
    // Another one like it.
    fn copy(&self) -> Board
        ensures { result ≡ self.now }
    {
        Board {
            kept: self.kept,
            t0: self.t0,
            t1: self.t1,
            t2: self.t2,
            t3: self.t3,
            usart: self.usart,
            spi: self.spi,
            radio: self.radio,
        }
    }
}

impl LaggingBoard {
    /// Another one like it, clock and all.
    pub fn copy(&self) -> LaggingBoard
        ensures { result ≡ self.now }
    {
        LaggingBoard {
            ahead: self.ahead,
            held: ClockedBoard {
                clock: self.held.clock,
                board: self.held.board.copy(),
            },
        }
    }
}
