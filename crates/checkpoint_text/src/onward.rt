// Where a run onward begins.
ghost use Rattle.checkpoint_text.specs.Onward.{origin_of};

use fleet_flight::Begins;
use node_runner::Scenario;
use state_text::StateParts;
use std::snapshot::Snapshot;
use world_core::Topo;

/// A scenario in a saved state.
#[derive(Drop)]
pub struct InState<'a> {
    pub scenario: &'a Scenario,
    pub state: &'a Snapshot<StateParts>,
}

impl<'a> Begins for InState<'a> {
    ghost origin = { λ b. origin_of b.scenario.now b.state.now.value };

    fn topo(&self) -> &Topo {
        self.scenario.lawful_topo()
    }
}

/// A scenario in a saved state, for a run that is handed on.
#[derive(Drop)]
pub struct Onward<'a> {
    pub scenario: &'a Scenario,
    pub state: Snapshot<StateParts>,
}

impl<'a> Begins for Onward<'a> {
    ghost origin = { λ b. origin_of b.scenario.now b.state.value };

    fn topo(&self) -> &Topo {
        self.scenario.lawful_topo()
    }
}
