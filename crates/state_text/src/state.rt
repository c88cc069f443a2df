// A saved state as plain data.
use air_base::Send;
use device_base::NUMBERS;
use std::marker::Model;

/// What a state has of a node. A contract sees it as its `NodeOf`.
pub struct NodeParts {
    /// Those of the core, then of the timers, then of the ports.
    pub numbers: [u64; NUMBERS],
    /// The 224 bytes from 0x20 to 0xFF that the board itself keeps.
    pub io: Vec<u8>,
    /// The 4,096 bytes from 0x100 to 0x10FF.
    pub sram: Vec<u8>,
}

// By hand, so that an exit that lets go of one, here and in the crates above, has one call to prove.
impl Drop for NodeParts {
    fn drop(self) {
        let NodeParts {
            numbers: _,
            io: _,
            sram: _,
        } = self;
    }
}

impl Model for NodeParts {
    ghost use Rattle.state_text.specs.Text.{NodeOf};

    ghost Value = { NodeOf };

    ghost view = { λ n. record { numbers = n.numbers; io = n.io.items; sram = n.sram.items } };
}

/// A state: its cycle, its nodes in order, and the sends that may still be heard. A contract sees it as its `StateOf`.
pub struct StateParts {
    /// The cycle, the end of an epoch.
    pub cycle: u64,
    /// One for each node, in order.
    pub nodes: Vec<NodeParts>,
    /// In order of cycle, then node.
    pub sends: Vec<Send>,
}

// By hand, as that of a node.
impl Drop for StateParts {
    fn drop(self) {
        let StateParts {
            cycle: _,
            nodes: _,
            sends: _,
        } = self;
    }
}

impl Model for StateParts {
    ghost use Rattle.state_text.specs.Text.{StateOf};

    ghost Value = { StateOf };

    ghost view = { λ s. record { cycle = s.cycle; nodes = s.nodes.items; sends = s.sends.items } };
}
