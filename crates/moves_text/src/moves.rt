// A run of a sweep as plain data.
ghost use Rattle.std.specs.Prelude.{◌≡◌, IfOk};

use avr_base::NoMemory;
use serial_ports::Script;
use std::marker::Model;

/// What a line says. A contract sees it as its `MoveOf`.
pub struct Move {
    pub(super) node: u8,
    pub(super) script: Script,
}

// By hand, so that an exit that lets go of one, here and in the crates above, has one call to prove.
impl Drop for Move {
    fn drop(self) {
        let Move { node: _, script: _ } = self;
    }
}

impl Model for Move {
    ghost use Rattle.moves_text.specs.Moves.{MoveOf};

    ghost Value = { MoveOf };

    ghost view = { λ m. record { node = m.node; script = m.script } };
}

impl Move {
    /// The node whose input it replaces.
    pub fn node(&self) -> u8
        ensures { result ≡ self.now.node }
    {
        self.node
    }

    /// The bytes that arrive there. `Err` only for want of memory.
    pub fn script(&self) -> Result<Script, NoMemory>
        ensures { IfOk result (λ script. script ≡ self.now.script) }
    {
        self.script.copy()
    }
}
