// A saved state is read from its text.
ghost use Rattle.std.specs.Prelude.{◌≡◌, ◌≢◌, ◌<◌, Ok, Err, false, IfErr, IfOk};
ghost use Rattle.state_text.specs.declared.fault.StateFault.TheVariants.{NoMemory};
ghost use Rattle.state_text.specs.Reading.{Gives};
ghost use Rattle.checkpoint_text.specs.Onward.{CanResume};
ghost use Rattle.checkpoint_text.specs.State.{node_rules, state_in};

use crate::saved::Saved;
use board_io::{Board, first_refused};
use data_space::IO_COUNT;
use device_base::{CORE_NUMBERS, PORT_NUMBERS, TIMER_NUMBERS, all_fit};
use node_core::{core_fits, ends_from};
use node_runner::Scenario;
use state_text::{Bounds, StateFault, StateParts, read};
use std::alloc::Global;

// The bounds of what is saved of a node: those of its restoring.
struct NodeBounds;

impl Bounds for NodeBounds {
    ghost rules = { λ bounds. node_rules };

    fn is_core(&self, core: &[u64; CORE_NUMBERS]) -> bool {
        all_fit(&core_fits(core))
    }

    fn are_timers(&self, timers: &[u64; TIMER_NUMBERS]) -> bool {
        all_fit(&Board::timers_fit(timers))
    }

    fn are_ports(
        &self,
        cycle: u64,
        core: &[u64; CORE_NUMBERS],
        ports: &[u64; PORT_NUMBERS],
    ) -> bool {
        all_fit(&Board::ports_fit(ends_from(cycle, core), ports))
    }

    fn are_readable(&self, io: &[u8]) -> bool {
        if io.len() != IO_COUNT {
            return false;
        }
        first_refused(io).is_none()
    }
}

/// The state of the scenario that the text `bytes` says, as plain data, or the fault of the text's first faulty line. A
/// line is bounded by what a node can be restored from, and a send by whether it may still be heard.
pub fn read_parts(
    alloc: Global,
    scenario: &Scenario,
    bytes: &[u8],
) -> Result<StateParts, StateFault>
    ensures exact { Gives (λ state. state) result (state_in scenario.now bytes.now) }
    ensures fit { IfOk result (λ state. CanResume scenario.now state) }
{
    read(alloc, scenario.lawful_topo(), &NodeBounds, bytes)
}

/// The state of the scenario that the text `bytes` says, ready to go on from it, or the fault of the text's first
/// faulty line, as [`read_parts`] gives it.
pub fn read_state(alloc: Global, scenario: &Scenario, bytes: &[u8]) -> Result<Saved, StateFault>
    ensures state { IfOk result (λ saved. state_in scenario.now bytes.now ≡ Ok saved.state) }
    ensures fresh { IfOk result (λ saved. saved ≡ record { scenario = scenario.now; state = saved.state; floor = saved.state.cycle; failed = false }) }
    ensures early { IfOk result (λ saved. saved.state.cycle < scenario.now.topo.limit) }
    ensures fault { IfErr result (λ fault. fault ≢ NoMemory → state_in scenario.now bytes.now ≡ Err fault) }
{
    match read_parts(alloc, scenario, bytes) {
        Err(fault) => Err(fault),
        Ok(state) => match Saved::new(alloc, scenario, &state) {
            Ok(saved) => Ok(saved),
            Err(_) => Err(StateFault::NoMemory),
        },
    }
}
