// The nodes of a state, as the writer reads them.
ghost use Rattle.std.specs.Prelude.{◌≡◌, ◌<◌, ℕ, List, length, slice_index};
ghost use Rattle.data_space.specs.declared.regions.TheConstants.{IO_COUNT, SRAM_LEN};
ghost use Rattle.state_text.specs.Text.{NodeOf};
ghost use Rattle.state_text.specs.Writing.{node_of};

use device_base::NUMBERS;

/// The nodes of a state that is to be written.
pub trait Nodes {
    /// What the state has of each, in order.
    ghost nodes: { Self → List NodeOf };

    /// How many there are.
    fn count(&self) -> usize
        ensures { result ≡ length (nodes self.now) };

    /// The numbers of a node.
    fn numbers(&self, node: usize) -> [u64; NUMBERS]
        requires { node < length (nodes self.now) }
        ensures { result ≡ (node_of (nodes self.now) node).numbers };

    /// The byte at a place of the 224 that the board keeps for a node, place 0 being data address 0x20.
    fn io(&self, node: usize, place: usize) -> u8
        requires node { node < length (nodes self.now) }
        requires place { place < IO_COUNT }
        ensures { result ≡ slice_index (node_of (nodes self.now) node).io place };

    /// The byte at a place of a node's 4,096 of SRAM, place 0 being data address 0x100.
    fn sram(&self, node: usize, place: usize) -> u8
        requires node { node < length (nodes self.now) }
        requires place { place < SRAM_LEN }
        ensures { result ≡ slice_index (node_of (nodes self.now) node).sram place };
}
