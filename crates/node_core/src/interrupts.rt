// Serving an interrupt.
ghost use Rattle.std.specs.Prelude.{◌≡◌};
ghost use Rattle.node_core.specs.Interrupts.{entry};

use crate::NodeBus;
use avr_base::{Sreg, StopCause, Vector};
use data_space::{Cpu, push_word};

/// Pushes the program counter, its low byte first, shuts interrupts out, and goes on at the vector. Where a push stops,
/// the one before it stays and nothing follows.
#[tactic(auto, unfolding(crate::specs::Interrupts::entry))]
pub fn enter(vector: Vector, cpu: &mut Cpu, bus: &mut NodeBus) -> Result<(), StopCause>
    ensures { record { result = result; cpu = cpu.new; bus = bus.new } ≡ entry vector.word cpu.old bus.old }
{
    let (mut regs, mut core) = cpu.parts();
    let back = core.pc;
    let pushed = push_word(&mut regs, &mut core, bus, back);
    if pushed.is_ok() {
        core.sreg = core.sreg.with(Sreg::I, false);
        core.pc = vector.word;
    }
    *cpu = Cpu::of_parts(&regs, core);
    pushed
}
