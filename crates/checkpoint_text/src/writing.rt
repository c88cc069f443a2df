// The state of a run is written as text.
ghost use Rattle.std.specs.Prelude.{◌≡◌, ◌<◌, ◌≤◌, ℕ, false, length, slice_index_or, OnErr, OnOk};
ghost use Rattle.sim_io.specs.Outside.{Rose, TookFront, extended};
ghost use Rattle.air_base.specs.NodeRun.{Timed};
ghost use Rattle.node_core.specs.declared.row.Row.{Row};
ghost use Rattle.node_core.specs.State.{NodeState};
ghost use Rattle.world_core.specs.Order.{node_at};
ghost use Rattle.node_runner.specs.Scenario.{fleet_of};
ghost use Rattle.state_text.specs.Text.{state_text};
ghost use Rattle.state_text.specs.Writing.{node_of};
ghost use Rattle.checkpoint_text.specs.Onward.{onward};
ghost use Rattle.checkpoint_text.specs.State.{parts_of, saved_with, state_with, stood};

use crate::saved::Saved;
use air_base::Send;
use avr_base::IO_START;
use data_space::SRAM_START;
use device_base::NUMBERS;
use node_core::Node;
use node_runner::Scenario;
use sim_io::{Sink, SinkFault};
use state_text::{Nodes, write};
use std::marker::Model;

// The nodes of a run.
#[derive(Drop)]
struct Stood<'a> {
    nodes: &'a [Node],
}

impl<'a> Model for Stood<'a> {
    ghost use Rattle.std.specs.Prelude.{List};
    ghost use Rattle.air_base.specs.NodeRun.{Timed};
    ghost use Rattle.node_core.specs.declared.row.Row.{Row};
    ghost use Rattle.node_core.specs.State.{NodeState};

    ghost Value = { List (Timed NodeState Row) };

    ghost view = { λ s. s.nodes.now };
}

// The node at a place.
fn stood_at(nodes: &[Node], node: usize) -> &Node
    requires { node < length nodes.now }
    ensures { parts_of result.now.state ≡ node_of (stood nodes.now) node }
{
    &nodes[node]
}

impl<'a> Nodes for Stood<'a> {
    ghost nodes = { λ nodes. stood nodes };

    fn count(&self) -> usize {
        self.nodes.len()
    }

    fn numbers(&self, node: usize) -> [u64; NUMBERS] {
        stood_at(self.nodes, node).numbers()
    }

    fn io(&self, node: usize, place: usize) -> u8 {
        stood_at(self.nodes, node).io(IO_START + place as u16)
    }

    fn sram(&self, node: usize, place: usize) -> u8 {
        stood_at(self.nodes, node).sram(SRAM_START + place as u16)
    }
}

/// Writes the text of the state of a run onward at the cycle that it has reached, with these sends, of which `sends`
/// has those that may still be heard. At a fault a front of the text was taken, and the sink's count rose.
pub fn write_onward_state<O: Sink>(
    saved: &Saved,
    sends: &[Send],
    sink: &mut O,
) -> Result<(), SinkFault>
    requires { saved.now.failed ≡ false }
    ensures taken { OnOk result (O.taken sink.new ≡ extended (O.taken sink.old) (state_text (state_with (onward saved.now.scenario saved.now.state) saved.now.floor sends.now))) }
    ensures ok { OnOk result (O.faults sink.new ≡ O.faults sink.old) }

    ensures front { OnErr result (TookFront (O.taken sink.old) (state_text (state_with (onward saved.now.scenario saved.now.state) saved.now.floor sends.now)) (O.taken sink.new)) }
    ensures later { O.faults sink.old ≤ O.faults sink.new }
    ensures rose { OnErr result (Rose (O.faults sink.old) (O.faults sink.new)) }
{
    let nodes = saved.nodes();
    write(saved.cycle(), &Stood { nodes }, sends, sink)
}

/// Writes the text of the state of a run of the scenario from reset at `cycle`: of all nodes, as they are then, and of
/// the sends that may still be heard, in order of cycle, then node. At a fault a front of the text was taken, and the
/// sink's count rose.
pub fn write_state<O: Sink>(
    _scenario: &Scenario,
    cycle: u64,
    nodes: &[Node],
    sends: &[Send],
    sink: &mut O,
) -> Result<(), SinkFault>
    requires count { length nodes.now ≡ _scenario.now.topo.nodes }
    requires states { (k : ℕ) (d : Timed NodeState Row) → k < _scenario.now.topo.nodes → (slice_index_or nodes.now k d).state ≡ node_at (fleet_of _scenario.now) k cycle }
    ensures taken { OnOk result (O.taken sink.new ≡ extended (O.taken sink.old) (state_text (saved_with _scenario.now cycle sends.now))) }
    ensures ok { OnOk result (O.faults sink.new ≡ O.faults sink.old) }

    ensures front { OnErr result (TookFront (O.taken sink.old) (state_text (saved_with _scenario.now cycle sends.now)) (O.taken sink.new)) }
    ensures later { O.faults sink.old ≤ O.faults sink.new }
    ensures rose { OnErr result (Rose (O.faults sink.old) (O.faults sink.new)) }
{
    write(cycle, &Stood { nodes }, sends, sink)
}
