// The shapes of instructions that load from or store to the data space. A pointer `p` is named by the lower register of
// its pair. Where an access stops, those before it stay, and nothing else happens.
ghost use Rattle.std.specs.Prelude.{◌≡◌, ◌<◌, ◌≤◌, ◌+◌, false, IfOk};
ghost use Rattle.data_space.specs.Core.{advanced, core_of, general, lone, whole};
ghost use Rattle.avr_core.specs.MemoryShapes.{displaced, decremented, loads, loads_pre_decrement, loads_post_increment, pops, pushes, sets_bit, stores, stores_pre_decrement, stores_post_increment};

use avr_base::{ByteBits, IO_START, Reg, StopCause};
use data_space::{
    Bus, Core, Done, Registers, load, pair, pop, push, reg, set_pair, set_reg, store,
};

/// The data address of the register at the I/O address `a`, which is 0 to 63 in an opcode.
#[inline]
pub fn io_address(a: u8) -> u16
    ensures { result ≡ a + 0x20 }
{
    u16::from(a) + IO_START
}

/// Ends an instruction of `words` words: the program counter goes on by them, modulo 65,536. The answer has its
/// `cycles`.
#[inline]
pub fn retire(words: u16, cycles: u8, core: &mut Core) -> Done
    ensures core { core.new ≡ core_of (advanced words (lone core.old)) }
    ensures reported { result ≡ record { cycles = cycles; sleep = false } }
{
    core.advance(words);
    Done {
        cycles,
        sleep: false,
    }
}

/// The data address `q` bytes behind the pointer `p`, modulo 65,536.
#[inline]
pub fn displaced(p: Reg, q: u8, regs: &Registers) -> u16
    ensures { result ≡ displaced p q (general regs.now) }
{
    pair(regs, p).wrapping_add(u16::from(q))
}

/// The data address before the pointer `p`, modulo 65,536.
#[inline]
pub fn decremented(p: Reg, regs: &Registers) -> u16
    ensures { result ≡ decremented p (general regs.now) }
{
    pair(regs, p).wrapping_sub(1)
}

/// Loads the byte at the data address `at` into rD, by an instruction of `words` words and `cycles` cycles. `Err` where
/// the read stops.
#[inline(always)]
#[tactic(auto, unfolding(crate::specs::MemoryShapes::loads))]
pub fn load_at<B: Bus>(
    d: Reg,
    at: u16,
    words: u16,
    cycles: u8,
    regs: &mut Registers,
    core: &mut Core,
    bus: &mut B,
) -> Result<Done, StopCause>
    ensures { record { result = result; cpu = whole regs.new core.new; bus = bus.new } ≡ loads B.get_gives d at words cycles (whole regs.old core.old) bus.old }
{
    let byte = load(regs, core, bus, at)?;
    set_reg(regs, d, byte);
    Ok(retire(words, cycles, core))
}

/// LD rD, P+: two cycles. Where the read stops (`Err`), the pointer stays as it was.
#[inline]
#[tactic(auto, unfolding(crate::specs::MemoryShapes::loads_post_increment))]
pub fn load_post_increment<B: Bus>(
    d: Reg,
    p: Reg,
    regs: &mut Registers,
    core: &mut Core,
    bus: &mut B,
) -> Result<Done, StopCause>
    ensures { record { result = result; cpu = whole regs.new core.new; bus = bus.new } ≡ loads_post_increment B.get_gives d p (whole regs.old core.old) bus.old }
{
    let at = pair(regs, p);
    let next = displaced(p, 1, regs);
    let byte = load(regs, core, bus, at)?;
    set_reg(regs, d, byte);
    set_pair(regs, p, next);
    Ok(retire(1, 2, core))
}

/// LD rD, -P: two cycles. Where the read stops (`Err`), the pointer stays as it was.
#[inline]
#[tactic(auto, unfolding(crate::specs::MemoryShapes::loads_pre_decrement))]
pub fn load_pre_decrement<B: Bus>(
    d: Reg,
    p: Reg,
    regs: &mut Registers,
    core: &mut Core,
    bus: &mut B,
) -> Result<Done, StopCause>
    ensures { record { result = result; cpu = whole regs.new core.new; bus = bus.new } ≡ loads_pre_decrement B.get_gives d p (whole regs.old core.old) bus.old }
{
    let as_it_was = *regs;
    let at = decremented(p, regs);
    set_pair(regs, p, at);
    match load(regs, core, bus, at) {
        Ok(byte) => {
            set_reg(regs, d, byte);
            Ok(retire(1, 2, core))
        }
        Err(cause) => {
            *regs = as_it_was;
            Err(cause)
        }
    }
}

/// Stores a byte at the data address `at`, by an instruction of `words` words and `cycles` cycles. `Err` where the
/// write stops.
#[inline]
#[tactic(auto, unfolding(crate::specs::MemoryShapes::stores))]
pub fn store_at<B: Bus>(
    at: u16,
    byte: u8,
    words: u16,
    cycles: u8,
    regs: &mut Registers,
    core: &mut Core,
    bus: &mut B,
) -> Result<Done, StopCause>
    ensures { record { result = result; cpu = whole regs.new core.new; bus = bus.new } ≡ stores B.put_gives at byte words cycles (whole regs.old core.old) bus.old }
{
    store(regs, core, bus, at, byte)?;
    Ok(retire(words, cycles, core))
}

/// ST P+, rR: two cycles. The store may be to the pointer itself, which is one higher than it was all the same. Where
/// the write stops (`Err`), the pointer stays as it was.
#[inline]
#[tactic(auto, unfolding(crate::specs::MemoryShapes::stores_post_increment))]
pub fn store_post_increment<B: Bus>(
    p: Reg,
    r: Reg,
    regs: &mut Registers,
    core: &mut Core,
    bus: &mut B,
) -> Result<Done, StopCause>
    ensures { record { result = result; cpu = whole regs.new core.new; bus = bus.new } ≡ stores_post_increment B.put_gives p r (whole regs.old core.old) bus.old }
{
    let at = pair(regs, p);
    let next = displaced(p, 1, regs);
    let byte = reg(regs, r);
    store(regs, core, bus, at, byte)?;
    set_pair(regs, p, next);
    Ok(retire(1, 2, core))
}

/// ST -P, rR: two cycles. Where the write stops (`Err`), the pointer stays as it was.
#[inline]
#[tactic(auto, unfolding(crate::specs::MemoryShapes::stores_pre_decrement))]
pub fn store_pre_decrement<B: Bus>(
    p: Reg,
    r: Reg,
    regs: &mut Registers,
    core: &mut Core,
    bus: &mut B,
) -> Result<Done, StopCause>
    ensures { record { result = result; cpu = whole regs.new core.new; bus = bus.new } ≡ stores_pre_decrement B.put_gives p r (whole regs.old core.old) bus.old }
{
    let as_it_was = (*regs, *core);
    let at = decremented(p, regs);
    set_pair(regs, p, at);
    let byte = reg(regs, r);
    match store(regs, core, bus, at, byte) {
        Ok(()) => Ok(retire(1, 2, core)),
        Err(cause) => {
            (*regs, *core) = as_it_was;
            Err(cause)
        }
    }
}

/// PUSH rR: two cycles. Where the write stops (`Err`), the stack pointer stays as it was.
#[inline]
#[tactic(auto, unfolding(crate::specs::MemoryShapes::pushes))]
pub fn push_reg<B: Bus>(
    r: Reg,
    regs: &mut Registers,
    core: &mut Core,
    bus: &mut B,
) -> Result<Done, StopCause>
    ensures { record { result = result; cpu = whole regs.new core.new; bus = bus.new } ≡ pushes B.put_gives r (whole regs.old core.old) bus.old }
{
    let byte = reg(regs, r);
    push(regs, core, bus, byte)?;
    Ok(retire(1, 2, core))
}

/// POP rD: two cycles. Where the read stops (`Err`), the stack pointer stays as it was.
#[inline]
#[tactic(auto, unfolding(crate::specs::MemoryShapes::pops))]
pub fn pop_reg<B: Bus>(
    d: Reg,
    regs: &mut Registers,
    core: &mut Core,
    bus: &mut B,
) -> Result<Done, StopCause>
    ensures { record { result = result; cpu = whole regs.new core.new; bus = bus.new } ≡ pops B.get_gives d (whole regs.old core.old) bus.old }
{
    let byte = pop(regs, core, bus)?;
    set_reg(regs, d, byte);
    Ok(retire(1, 2, core))
}

/// SBI and CBI: bit `b` (0 to 7) of the register at the I/O address `a` becomes `on`, by a read and a write of the
/// whole register. Two cycles. `Err` where one of the two stops.
#[inline]
#[tactic(auto, unfolding(crate::specs::MemoryShapes::sets_bit))]
pub fn set_bit<B: Bus>(
    a: u8,
    b: u8,
    on: bool,
    regs: &mut Registers,
    core: &mut Core,
    bus: &mut B,
) -> Result<Done, StopCause>
    requires { b < 8 }
    ensures { record { result = result; cpu = whole regs.new core.new; bus = bus.new } ≡ sets_bit B.get_gives B.put_gives a b on (whole regs.old core.old) bus.old }
{
    let byte = ByteBits {
        byte: load(regs, core, bus, io_address(a))?,
    };
    store_at(io_address(a), byte.with(b, on), 1, 2, regs, core, bus)
}
