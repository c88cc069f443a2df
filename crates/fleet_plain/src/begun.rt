// Where a run from reset begins.
ghost use Rattle.std.specs.Prelude.{IfOk};
ghost use Rattle.fleet_flight.specs.Paused.{HaveBegun};
ghost use Rattle.fleet_plain.specs.Run.{at_reset};

use avr_base::NoMemory;
use fleet_flight::Begins;
use node_core::Node;
use node_runner::Scenario;
use std::alloc::Global;
use world_core::Topo;

/// All nodes of a scenario at reset.
#[derive(Drop)]
pub struct AtReset<'a> {
    pub scenario: &'a Scenario,
}

impl<'a> Begins for AtReset<'a> {
    ghost origin = { λ b. at_reset b.scenario.now };

    fn topo(&self) -> &Topo {
        self.scenario.lawful_topo()
    }
}

/// The nodes of a scenario at reset, in order of number.
pub fn nodes_at_reset(alloc: Global, scenario: &Scenario) -> Result<Vec<Node>, NoMemory>
    ensures { IfOk result (λ nodes. HaveBegun (at_reset scenario.now) scenario.now.topo.nodes nodes.items) }
{
    let mut nodes = Vec::new(alloc);
    for k in 0..scenario.lawful_topo().nodes() {
        let node = scenario.reset(alloc, k)?;
        if nodes.push(node).is_err() {
            return Err(NoMemory);
        }
    }
    Ok(nodes)
}
