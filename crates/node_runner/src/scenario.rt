// A scenario is a world of the air.
use avr_program::Program;
use scenario_file::ScenarioText;
use serial_ports::Script;
use std::marker::Model;
use std::mem;
use world_core::{Topo, World};

/// What a whole run needs: who hears whom, each node's program memory, the bytes that arrive at it, and the window of
/// cycles in which instructions and entries of interrupts are traced.
pub struct Scenario {
    topo: Topo,
    images: Vec<Program>,
    scripts: Vec<Script>,
    window: (u64, u64),
}

// By hand, so that an exit that lets go of a scenario, here and in the crates above, has one call to prove.
impl Drop for Scenario {
    fn drop(self) {
        let Scenario {
            topo: _,
            images: _,
            scripts: _,
            window: _,
        } = self;
    }
}

impl Model for Scenario {
    ghost use Rattle.node_runner.specs.Scenario.{ScenarioOf, IsScenario};

    ghost Value = { ScenarioOf };

    ghost view = { λ s. record { topo = s.topo; images = s.images.items; scripts = s.scripts.items; from = s.window.0; to = s.window.1 } };

    ghost invariant = { λ s. IsScenario record { topo = s.topo; images = s.images.items; scripts = s.scripts.items; from = s.window.0; to = s.window.1 } };
}

impl Scenario {
    ghost use Rattle.std.specs.Prelude.{◌≡◌, ◌<◌, ◌≤◌, vec_len};
    ghost use Rattle.node_runner.specs.Scenario.{IsScenario, image_at, script_at, with_script};

    /// The scenario of a text whose images were read, one for each node in order. A node at which nothing arrives has a
    /// script of no bytes.
    pub fn new(text: ScenarioText, images: Vec<Program>) -> Scenario
        requires images { vec_len images ≡ text.topo.nodes }
        requires scripts { vec_len text.scripts ≡ text.topo.nodes }
        requires window { text.window.0 ≤ text.window.1 }
        ensures { result ≡ record { topo = text.topo; images = images.items; scripts = text.scripts.items; from = text.window.0; to = text.window.1 } }
    {
        let ScenarioText {
            topo,
            images: _,
            scripts,
            window,
        } = text;
        // The call's clause says that the topology is lawful, which a scenario's invariant asks for.
        let _lawful = topo.nodes();
        Scenario {
            topo,
            images,
            scripts,
            window,
        }
    }

    /// The program of node `node`.
    pub fn program(&self, node: u8) -> &Program
        requires { node < self.now.topo.nodes }
        ensures { result.now ≡ image_at self.now node }
    {
        &self.images[usize::from(node)]
    }

    /// The bytes that arrive at node `node`.
    pub fn script(&self, node: u8) -> &Script
        requires { node < self.now.topo.nodes }
        ensures { result.now ≡ script_at self.now node }
    {
        &self.scripts[usize::from(node)]
    }

    /// Puts `script` at node `node`, in place of the one that it had, which is given back. All else stays: no program is
    /// copied, and nothing is allocated.
    pub fn swap_script(&mut self, node: u8, script: Script) -> Script
        requires { node < self.old.topo.nodes }
        ensures before { result ≡ script_at self.old node }
        ensures after { self.new ≡ with_script self.old node script }
    {
        mem::replace(&mut self.scripts[usize::from(node)], script)
    }

    /// The cycles from the first on and below the second in which instructions and entries of interrupts are traced.
    pub fn window(&self) -> (u64, u64)
        ensures from { result.0 ≡ self.now.from }
        ensures to { result.1 ≡ self.now.to }
        ensures rises { result.0 ≤ result.1 }
    {
        self.window
    }

    /// Its topology, as `World::topo` gives it; who asks for it learns that this is a scenario.
    pub fn lawful_topo(&self) -> &Topo
        ensures value { result.now ≡ self.now.topo }
        ensures sound { IsScenario self.now }
    {
        &self.topo
    }
}

impl World for Scenario {
    ghost use Rattle.node_runner.specs.Scenario.{fleet_of};
    ghost use Rattle.world_core.specs.Order.{facts_of};

    ghost facts = { λ s. facts_of (fleet_of s) };

    fn topo(&self) -> &Topo {
        &self.topo
    }
}
