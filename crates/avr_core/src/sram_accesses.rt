// Loads, stores, calls and returns, told apart by whether they are of the internal SRAM: behind such a one a loop over
// instructions looks at nothing. Each is executed by the one text that `accesses` and `calls` have, which stands in both
// branches, since the host's code of the one then has no device in it. A call's two pushes stand apart.
ghost use Rattle.std.specs.Prelude.{◌≡◌, ◌+◌, ◌%◌, if◌then◌else◌, true, false, IfOk, OnErr};
ghost use Rattle.data_space.specs.Core.{general, pair_at, whole};
ghost use Rattle.data_space.specs.Sequence.{pushed_word};
ghost use Rattle.avr_core.specs.FlowShapes.{calls, relative, returns};
ghost use Rattle.avr_core.specs.MemoryShapes.{decremented, loads, loads_post_increment, loads_pre_decrement, pops, pushes, stores, stores_post_increment, stores_pre_decrement};
ghost use Rattle.avr_core.specs.declared.instructions.After.TheVariants as after;
ghost use Rattle.avr_core.specs.Execute.{after_access, calls_by_sram, pushed_as, returns_by_sram};

use crate::accesses::{
    decremented, load_at, load_post_increment, load_pre_decrement, pop_reg, push_reg, store_at,
    store_post_increment, store_pre_decrement,
};
use crate::calls::{call, call_at_z, call_near, ret, z_pointer};
use crate::instructions::After;
use crate::jumps::{jump, relative_to};
use crate::sram::is_in_sram;
use avr_base::{Reg, StopCause};
use data_space::{Bus, Core, Done, Registers, pair, push_both};

/// What an instruction that accesses data leaves, and what it reports.
pub type Accessed = (After, Result<Done, StopCause>);

/// Loads the byte at the data address `at`, as [`load_at`].
#[inline(always)]
pub fn load<B: Bus>(
    d: Reg,
    at: u16,
    words: u16,
    cycles: u8,
    regs: &mut Registers,
    core: &mut Core,
    bus: &mut B,
) -> Accessed
    ensures after { result.0 ≡ after_access after.Loaded at }
    ensures outcome { record { result = result.1; cpu = whole regs.new core.new; bus = bus.new } ≡ loads B.get_gives d at words cycles (whole regs.old core.old) bus.old }
{
    if is_in_sram(at) {
        return (
            After::Nothing,
            load_at(d, at, words, cycles, regs, core, bus),
        );
    }
    (
        After::Loaded,
        load_at(d, at, words, cycles, regs, core, bus),
    )
}

/// Stores a byte at the data address `at`, as [`store_at`].
#[inline(always)]
pub fn store<B: Bus>(
    at: u16,
    byte: u8,
    words: u16,
    cycles: u8,
    regs: &mut Registers,
    core: &mut Core,
    bus: &mut B,
) -> Accessed
    ensures after { result.0 ≡ after_access after.Store at }
    ensures outcome { record { result = result.1; cpu = whole regs.new core.new; bus = bus.new } ≡ stores B.put_gives at byte words cycles (whole regs.old core.old) bus.old }
{
    if is_in_sram(at) {
        return (
            After::Nothing,
            store_at(at, byte, words, cycles, regs, core, bus),
        );
    }
    (
        After::Store,
        store_at(at, byte, words, cycles, regs, core, bus),
    )
}

/// LD rD, P+, as [`load_post_increment`].
#[inline]
pub fn load_on<B: Bus>(
    d: Reg,
    p: Reg,
    regs: &mut Registers,
    core: &mut Core,
    bus: &mut B,
) -> Accessed
    ensures after { result.0 ≡ after_access after.Loaded (pair_at p (general regs.old)) }
    ensures outcome { record { result = result.1; cpu = whole regs.new core.new; bus = bus.new } ≡ loads_post_increment B.get_gives d p (whole regs.old core.old) bus.old }
{
    if is_in_sram(pair(regs, p)) {
        return (After::Nothing, load_post_increment(d, p, regs, core, bus));
    }
    (After::Loaded, load_post_increment(d, p, regs, core, bus))
}

/// ST P+, rR, as [`store_post_increment`].
#[inline]
pub fn store_on<B: Bus>(
    p: Reg,
    r: Reg,
    regs: &mut Registers,
    core: &mut Core,
    bus: &mut B,
) -> Accessed
    ensures after { result.0 ≡ after_access after.Store (pair_at p (general regs.old)) }
    ensures outcome { record { result = result.1; cpu = whole regs.new core.new; bus = bus.new } ≡ stores_post_increment B.put_gives p r (whole regs.old core.old) bus.old }
{
    if is_in_sram(pair(regs, p)) {
        return (After::Nothing, store_post_increment(p, r, regs, core, bus));
    }
    (After::Store, store_post_increment(p, r, regs, core, bus))
}

/// LD rD, -P, as [`load_pre_decrement`].
#[inline]
pub fn load_before<B: Bus>(
    d: Reg,
    p: Reg,
    regs: &mut Registers,
    core: &mut Core,
    bus: &mut B,
) -> Accessed
    ensures after { result.0 ≡ after_access after.Loaded (decremented p (general regs.old)) }
    ensures outcome { record { result = result.1; cpu = whole regs.new core.new; bus = bus.new } ≡ loads_pre_decrement B.get_gives d p (whole regs.old core.old) bus.old }
{
    if is_in_sram(decremented(p, regs)) {
        return (After::Nothing, load_pre_decrement(d, p, regs, core, bus));
    }
    (After::Loaded, load_pre_decrement(d, p, regs, core, bus))
}

/// ST -P, rR, as [`store_pre_decrement`].
#[inline]
pub fn store_before<B: Bus>(
    p: Reg,
    r: Reg,
    regs: &mut Registers,
    core: &mut Core,
    bus: &mut B,
) -> Accessed
    ensures after { result.0 ≡ after_access after.Store (decremented p (general regs.old)) }
    ensures outcome { record { result = result.1; cpu = whole regs.new core.new; bus = bus.new } ≡ stores_pre_decrement B.put_gives p r (whole regs.old core.old) bus.old }
{
    if is_in_sram(decremented(p, regs)) {
        return (After::Nothing, store_pre_decrement(p, r, regs, core, bus));
    }
    (After::Store, store_pre_decrement(p, r, regs, core, bus))
}

/// PUSH rR.
#[inline(always)]
pub fn push<B: Bus>(r: Reg, regs: &mut Registers, core: &mut Core, bus: &mut B) -> Accessed
    ensures after { result.0 ≡ after_access after.Store regs.old.sp }
    ensures outcome { record { result = result.1; cpu = whole regs.new core.new; bus = bus.new } ≡ pushes B.put_gives r (whole regs.old core.old) bus.old }
{
    if is_in_sram(regs.sp) {
        return (After::Nothing, push_reg(r, regs, core, bus));
    }
    (After::Store, push_reg(r, regs, core, bus))
}

/// POP rD.
#[inline(always)]
pub fn pop<B: Bus>(d: Reg, regs: &mut Registers, core: &mut Core, bus: &mut B) -> Accessed
    ensures after { result.0 ≡ after_access after.Loaded ((regs.old.sp + 1) % 65536) }
    ensures outcome { record { result = result.1; cpu = whole regs.new core.new; bus = bus.new } ≡ pops B.get_gives d (whole regs.old core.old) bus.old }
{
    if is_in_sram(regs.sp.wrapping_add(1)) {
        return (After::Nothing, pop_reg(d, regs, core, bus));
    }
    (After::Loaded, pop_reg(d, regs, core, bus))
}

// Pushes a word where both bytes come to lie in the SRAM, and says whether it did; else it does nothing. In a call of
// its own, which is short, since no device is in it: so the host's registers in a loop over instructions stay as they
// are. The core comes by value, since such pushes change no part of it.
#[inline(never)]
fn push_by_sram<B: Bus>(
    regs: &mut Registers,
    core: Core,
    bus: &mut B,
    word: u16,
) -> Result<bool, StopCause>
    ensures which { IfOk result (λ here. here ≡ calls_by_sram regs.old.sp) }
    ensures stops { OnErr result (calls_by_sram regs.old.sp ≡ true) }
    ensures pushed { calls_by_sram regs.old.sp ≡ true → record { result = pushed_as result; cpu = whole regs.new core; bus = bus.new } ≡ pushed_word B.put_gives word (whole regs.old core) bus.old }
    ensures same { calls_by_sram regs.old.sp ≡ false → (regs.new ≡ regs.old) × (bus.new ≡ bus.old) }
{
    if is_in_sram(regs.sp) && is_in_sram(regs.sp.wrapping_sub(1)) {
        let mut there = core;
        return match push_both(regs, &mut there, bus, word) {
            Ok(()) => Ok(true),
            Err(cause) => Err(cause),
        };
    }
    Ok(false)
}

/// CALL of the word address `k`, as [`call`].
#[inline(always)]
#[tactic(auto, unfolding(crate::specs::FlowShapes::calls))]
pub fn called<B: Bus>(k: u16, regs: &mut Registers, core: &mut Core, bus: &mut B) -> Accessed
    ensures after { result.0 ≡ (if calls_by_sram regs.old.sp then after.Nothing else after.Store) }
    ensures outcome { record { result = result.1; cpu = whole regs.new core.new; bus = bus.new } ≡ calls B.put_gives 4 2 (λ _. k) (whole regs.old core.old) bus.old }
{
    let back = core.pc.wrapping_add(2);
    match push_by_sram(regs, *core, bus, back) {
        Ok(true) => (After::Nothing, Ok(jump(4, k, core))),
        Ok(false) => (After::Store, call(k, regs, core, bus)),
        Err(cause) => (After::Nothing, Err(cause)),
    }
}

/// RCALL of the word address `k` words behind the next word, as [`call_near`].
#[inline]
#[tactic(auto, unfolding(crate::specs::FlowShapes::calls))]
pub fn called_near<B: Bus>(k: i16, regs: &mut Registers, core: &mut Core, bus: &mut B) -> Accessed
    ensures after { result.0 ≡ (if calls_by_sram regs.old.sp then after.Nothing else after.Store) }
    ensures outcome { record { result = result.1; cpu = whole regs.new core.new; bus = bus.new } ≡ calls B.put_gives 3 1 (relative k) (whole regs.old core.old) bus.old }
{
    let back = core.pc.wrapping_add(1);
    match push_by_sram(regs, *core, bus, back) {
        Ok(true) => (After::Nothing, Ok(jump(3, relative_to(k, core), core))),
        Ok(false) => (After::Store, call_near(k, regs, core, bus)),
        Err(cause) => (After::Nothing, Err(cause)),
    }
}

/// ICALL, as [`call_at_z`].
#[inline]
#[tactic(auto, unfolding(crate::specs::FlowShapes::calls))]
pub fn called_at_z<B: Bus>(regs: &mut Registers, core: &mut Core, bus: &mut B) -> Accessed
    ensures after { result.0 ≡ (if calls_by_sram regs.old.sp then after.Nothing else after.Store) }
    ensures outcome { record { result = result.1; cpu = whole regs.new core.new; bus = bus.new } ≡ calls B.put_gives 3 1 (pair_at 30) (whole regs.old core.old) bus.old }
{
    let back = core.pc.wrapping_add(1);
    match push_by_sram(regs, *core, bus, back) {
        Ok(true) => (After::Nothing, Ok(jump(3, z_pointer(regs), core))),
        Ok(false) => (After::Store, call_at_z(regs, core, bus)),
        Err(cause) => (After::Nothing, Err(cause)),
    }
}

/// RET.
#[inline(always)]
pub fn returned<B: Bus>(regs: &mut Registers, core: &mut Core, bus: &mut B) -> Accessed
    ensures after { result.0 ≡ (if returns_by_sram regs.old.sp then after.Nothing else after.Loaded) }
    ensures outcome { record { result = result.1; cpu = whole regs.new core.new; bus = bus.new } ≡ returns B.get_gives (whole regs.old core.old) bus.old }
{
    let high = regs.sp.wrapping_add(1);
    if is_in_sram(high) && is_in_sram(high.wrapping_add(1)) {
        return (After::Nothing, ret(regs, core, bus));
    }
    (After::Loaded, ret(regs, core, bus))
}
