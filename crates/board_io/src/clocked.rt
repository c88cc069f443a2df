// A board in a cycle, as a bus.
ghost use Rattle.std.specs.Prelude.{◌≡◌};

use crate::rules::{LAST, listed_rule};
use crate::{Board, Clock};
use avr_base::StopCause;
use data_space::Bus;

/// A board in the cycle in which its registers are accessed. As a bus it has the I/O registers at data addresses 0x0020
/// to 0x00FF.
#[derive(Drop)]
pub struct ClockedBoard {
    /// That cycle.
    pub clock: Clock,
    /// The board.
    pub board: Board,
}

impl Bus for ClockedBoard {
    ghost use Rattle.board_io.specs.Registers.{io_get, io_put};

    ghost get_gives = { io_get };

    ghost put_gives = { io_put };

    fn get(&mut self, at: u16) -> Result<u8, StopCause> {
        if at > LAST {
            return Err(StopCause::ReservedAddress);
        }
        self.board.get_by(listed_rule(at), at as u8)
    }

    fn put(&mut self, at: u16, b: u8) -> Result<(), StopCause> {
        if at > LAST {
            return Err(StopCause::ReservedAddress);
        }
        self.board.put_by(self.clock, listed_rule(at), at as u8, b)
    }
}
