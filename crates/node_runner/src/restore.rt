// A node of a scenario, at reset and restored.
ghost use Rattle.std.specs.Prelude.{◌≡◌, ◌<◌, ◌≤◌, [], false, None, IfOk, IfErr, OnOk, length};
ghost use Rattle.air_base.specs.Bounds.{LAST_CYCLE};
ghost use Rattle.data_space.specs.declared.regions.TheConstants.{IO_COUNT, SRAM_LEN};
ghost use Rattle.node_core.specs.Restored.{IsRefused, fault_of};
ghost use Rattle.node_core.specs.State.{NodeState};
ghost use Rattle.node_runner.specs.Scenario.{IsRestoredIn, fleet_of};

use crate::Scenario;
use avr_base::NoMemory;
use device_base::NUMBERS;
use node_core::{Node, RestoreFault};
use std::alloc::Global;

impl Scenario {
    /// Node `node` of the scenario at reset, below the number of its nodes. It shares the node's program, and has a copy
    /// of its script.
    pub fn reset(&self, alloc: Global, node: u8) -> Result<Node, NoMemory>
        requires { node < self.now.topo.nodes }
        ensures { IfOk result (λ n. n ≡ record { cycle = 0; asking = false; state = (fleet_of self.now).begins node; rows = [] }) }
    {
        let topo = self.lawful_topo();
        let program = self.program(node).share()?;
        let script = self.script(node).copy()?;
        let window = self.window();
        Node::new(alloc, node, program, script, window, topo.byte_time())
    }

    /// Node `node` of the scenario, below the number of its nodes, of what was saved of it, by [`Node::restore`]: with
    /// its number, its program and the bytes that arrive at it, and the scenario's window and byte time.
    pub fn restore(
        &self,
        alloc: Global,
        node: u8,
        cycle: u64,
        numbers: &[u64; NUMBERS],
        io: &[u8],
        sram: &[u8],
    ) -> Result<Node, RestoreFault>
        requires node { node < self.now.topo.nodes }
        requires cycle { cycle ≤ LAST_CYCLE }
        requires io { length io.now ≡ IO_COUNT }
        requires sram { length sram.now ≡ SRAM_LEN }
        ensures refused { IfErr result (λ fault. IsRefused cycle numbers.now io.now fault) }
        ensures sound { OnOk result (fault_of cycle numbers.now io.now ≡ None) }
        ensures node { IfOk result (λ n. n ≡ record { cycle = cycle; asking = false; state = n.state; rows = [] }) }
        ensures state { IfOk result (λ n. IsRestoredIn self.now node numbers.now io.now sram.now n.state) }
        ensures one { (s : NodeState) → IsRestoredIn self.now node numbers.now io.now sram.now s → IfOk result (λ n. n.state ≡ s) }
    {
        if let Some(fault) = Node::fault(cycle, numbers, io) {
            return Err(fault);
        }
        match self.restored(alloc, node, cycle, numbers, io, sram) {
            Ok(node) => Ok(node),
            Err(_) => Err(RestoreFault::NoMemory),
        }
    }

    /// The node that [`Scenario::restore`] makes, where [`Node::fault`] finds none: nothing is tested again.
    pub fn restored(
        &self,
        alloc: Global,
        node: u8,
        cycle: u64,
        numbers: &[u64; NUMBERS],
        io: &[u8],
        sram: &[u8],
    ) -> Result<Node, NoMemory>
        requires node { node < self.now.topo.nodes }
        requires cycle { cycle ≤ LAST_CYCLE }
        requires io { length io.now ≡ IO_COUNT }
        requires sram { length sram.now ≡ SRAM_LEN }
        requires sound { fault_of cycle numbers.now io.now ≡ None }
        ensures node { IfOk result (λ n. n ≡ record { cycle = cycle; asking = false; state = n.state; rows = [] }) }
        ensures state { IfOk result (λ n. IsRestoredIn self.now node numbers.now io.now sram.now n.state) }
        ensures one { (s : NodeState) → IsRestoredIn self.now node numbers.now io.now sram.now s → IfOk result (λ n. n.state ≡ s) }
    {
        let topo = self.lawful_topo();
        let window = self.window();
        Node::restored(
            alloc,
            node,
            self.program(node).share()?,
            self.script(node).copy()?,
            window,
            topo.byte_time(),
            cycle,
            numbers,
            io,
            sram,
        )
    }
}
