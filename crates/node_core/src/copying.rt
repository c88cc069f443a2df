// A node once more.
ghost use Rattle.std.specs.Prelude.{◌≡◌, ◌+◌, ◌-◌, [], false, length, IfOk};
ghost use Rattle.data_space.specs.declared.regions.TheConstants.{SRAM_LEN};
ghost use Rattle.node_core.specs.Shown.{shown};

use crate::machine::Machine;
use crate::{Node, NodeBus};
use avr_base::NoMemory;
use data_space::{SRAM_LEN, SRAM_START, Sram};
use std::alloc::Global;

// Another SRAM with the same 4,096 bytes.
fn copied(alloc: Global, from: &Sram) -> Result<Sram, NoMemory>
    requires { length from.now ≡ SRAM_LEN }
    ensures { IfOk result (λ sram. sram ≡ from.now) }
{
    let mut sram = Sram::new(alloc)?;
    for k in 0..SRAM_LEN {
        let at = SRAM_START + k as u16;
        sram.put(at, from.get(at));
    }
    Ok(sram)
}

impl Machine {
    // Another one like it, without rows.
    fn copy(&self, alloc: Global) -> Result<Machine, NoMemory>
        requires { length self.now.bus.sram ≡ SRAM_LEN }
        ensures state { IfOk result (λ m. shown m ≡ shown self.now) }
        ensures clock { IfOk result (λ m. m.bus.io.clock ≡ self.now.bus.io.clock) }
        ensures rows { IfOk result (λ m. m.rows.items ≡ []) }
    {
        let sram = copied(alloc, &self.bus.sram)?;
        Ok(Machine {
            number: self.number,
            program: self.program.share()?,
            script: self.script.copy()?,
            from: self.from,
            to: self.to,
            cpu: self.cpu,
            bus: NodeBus {
                sram,
                io: self.bus.io.copy(),
            },
            wait: self.wait,
            owed: self.owed,
            asleep: self.asleep,
            stop: self.stop,
            count: self.count,
            rows: Vec::new(alloc),
        })
    }
}

impl Node {
    /// Another one in the same state, without rows. No sample is to be unanswered.
    pub fn copy(&self, alloc: Global) -> Result<Node, NoMemory>
        requires calm { self.now.asking ≡ false }
        requires sram { length self.now.state.sram ≡ SRAM_LEN }
        ensures { IfOk result (λ node. node ≡ record self.now { rows = [] }) }
    {
        Ok(Node {
            cycle: self.cycle,
            asking: false,
            machine: self.machine.copy(alloc)?,
        })
    }
}
