// Calls and returns. Where an access to the stack stops, those before it stay.
ghost use Rattle.std.specs.Prelude.{◌≡◌, ◌≤◌, IfOk};
ghost use Rattle.data_space.specs.Core.{general, pair_at, whole};
ghost use Rattle.avr_core.specs.FlowShapes.{calls, pushes_return, relative, returns, returns_enabling};

use crate::jumps::{jump, relative_to};
use avr_base::{Reg, Sreg, StopCause};
use data_space::{Bus, Core, Done, Registers, pair, pop_word, push_word};

/// The pointer Z, r31:r30.
#[inline]
pub fn z_pointer(regs: &Registers) -> u16
    ensures { result ≡ pair_at 30 (general regs.now) }
{
    pair(regs, Reg::numbered(30))
}

// Pushes the address `words` on.
#[inline(always)]
fn push_return<B: Bus>(
    words: u16,
    regs: &mut Registers,
    core: &mut Core,
    bus: &mut B,
) -> Result<(), StopCause>
    ensures { record { result = result; cpu = whole regs.new core.new; bus = bus.new } ≡ pushes_return B.put_gives words (whole regs.old core.old) bus.old }
{
    let back = core.pc.wrapping_add(words);
    push_word(regs, core, bus, back)
}

/// CALL: the program goes on at the word address `k`, after four cycles. `Err` where a push of the return address
/// stops.
#[inline(always)]
#[tactic(auto, unfolding(crate::specs::FlowShapes::calls))]
pub fn call<B: Bus>(
    k: u16,
    regs: &mut Registers,
    core: &mut Core,
    bus: &mut B,
) -> Result<Done, StopCause>
    ensures { record { result = result; cpu = whole regs.new core.new; bus = bus.new } ≡ calls B.put_gives 4 2 (λ _. k) (whole regs.old core.old) bus.old }
{
    push_return(2, regs, core, bus)?;
    Ok(jump(4, k, core))
}

/// RCALL: the program goes on `k` words behind the next word, after three cycles. `Err` where a push of the return
/// address stops.
#[inline(always)]
#[tactic(auto, unfolding(crate::specs::FlowShapes::calls))]
pub fn call_near<B: Bus>(
    k: i16,
    regs: &mut Registers,
    core: &mut Core,
    bus: &mut B,
) -> Result<Done, StopCause>
    ensures { record { result = result; cpu = whole regs.new core.new; bus = bus.new } ≡ calls B.put_gives 3 1 (relative k) (whole regs.old core.old) bus.old }
{
    push_return(1, regs, core, bus)?;
    Ok(jump(3, relative_to(k, core), core))
}

/// ICALL: the program goes on at the word address in Z, after three cycles. The stack may lie on Z, which is read after
/// the pushes. `Err` where one of them stops.
#[inline(always)]
#[tactic(auto, unfolding(crate::specs::FlowShapes::calls))]
pub fn call_at_z<B: Bus>(
    regs: &mut Registers,
    core: &mut Core,
    bus: &mut B,
) -> Result<Done, StopCause>
    ensures { record { result = result; cpu = whole regs.new core.new; bus = bus.new } ≡ calls B.put_gives 3 1 (pair_at 30) (whole regs.old core.old) bus.old }
{
    push_return(1, regs, core, bus)?;
    Ok(jump(3, z_pointer(regs), core))
}

/// RET: the program goes on at the word address that is popped, after four cycles. `Err` where a read of it stops.
#[inline]
#[tactic(auto, unfolding(crate::specs::FlowShapes::returns))]
pub fn ret<B: Bus>(regs: &mut Registers, core: &mut Core, bus: &mut B) -> Result<Done, StopCause>
    ensures { record { result = result; cpu = whole regs.new core.new; bus = bus.new } ≡ returns B.get_gives (whole regs.old core.old) bus.old }
{
    let pc = pop_word(regs, core, bus)?;
    Ok(jump(4, pc, core))
}

/// RETI: the program goes on at the word address that is popped, with the flag I set, after four cycles. `Err` where a
/// read of it stops.
#[inline(always)]
#[tactic(auto, unfolding(crate::specs::FlowShapes::returns_enabling))]
pub fn reti<B: Bus>(regs: &mut Registers, core: &mut Core, bus: &mut B) -> Result<Done, StopCause>
    ensures { record { result = result; cpu = whole regs.new core.new; bus = bus.new } ≡ returns_enabling B.get_gives (whole regs.old core.old) bus.old }
{
    let pc = pop_word(regs, core, bus)?;
    core.sreg = core.sreg.with(Sreg::I, true);
    Ok(jump(4, pc, core))
}
