// Loads, stores, pushes and pops over the core's registers and any bus.
ghost use Rattle.std.specs.Prelude.{◌≡◌, ◌<◌};
ghost use Rattle.data_space.specs.Core.{general, registers_of, whole};
ghost use Rattle.data_space.specs.Space.{loaded, popped, pushed, stored};
ghost use Rattle.data_space.specs.Sequence.{popped_word, pushed_word};

use crate::{Bus, Core, Registers, reg, set_reg};
use avr_base::{Reg, Sreg, StopCause};

// The data addresses of the core's registers beside r0 to r31.
const RAMPZ: u16 = 0x5B;

const SPL: u16 = 0x5D;

const SPH: u16 = 0x5E;

const SREG: u16 = 0x5F;

/// Loads the byte at the data address `at`: 0x0000 to 0x001F are r0 to r31, 0x005B, 0x005D, 0x005E and 0x005F are
/// RAMPZ, SPL, SPH and SREG, all else is the bus. No register changes; an `Err` is the bus's stop, and changes nothing.
#[inline(always)]
#[tactic(auto, unfolding(crate::specs::Space::loaded))]
pub fn load<B: Bus>(regs: &Registers, core: &Core, bus: &mut B, at: u16) -> Result<u8, StopCause>
    ensures result { result ≡ (loaded B.get_gives at (whole regs.now core.now) bus.old).result }
    ensures core { whole regs.now core.now ≡ (loaded B.get_gives at (whole regs.now core.now) bus.old).cpu }
    ensures bus { bus.new ≡ (loaded B.get_gives at (whole regs.now core.now) bus.old).bus }
{
    if at > SREG {
        return bus.get(at);
    }
    load_low(regs, core.sreg, bus, at)
}

// A load at an address up to SREG's, where the core's registers lie. It does not read the program counter, which has
// no data address.
#[inline(never)]
#[tactic(auto, unfolding(crate::specs::Space::loaded))]
fn load_low<B: Bus>(regs: &Registers, sreg: Sreg, bus: &mut B, at: u16) -> Result<u8, StopCause>
    ensures result { result ≡ (loaded B.get_gives at (whole regs.now (record { sreg = sreg; pc = 0 })) bus.old).result }
    ensures bus { bus.new ≡ (loaded B.get_gives at (whole regs.now (record { sreg = sreg; pc = 0 })) bus.old).bus }
{
    // first what most loads are of, the devices' registers
    if at > 0x1F && at < RAMPZ {
        return bus.get(at);
    }
    match at {
        0..=0x1F => Ok(reg(regs, Reg::numbered(at as u8))),
        RAMPZ => Ok(u8::from(regs.rampz)),
        SPL => Ok((regs.sp % 256) as u8),
        SPH => Ok((regs.sp / 256) as u8),
        SREG => Ok(sreg.bits),
        _ => bus.get(at),
    }
}

/// Stores the byte `b` at the data address `at`, by the addresses of [`load`]; of RAMPZ only bit 0 is kept. An `Err`
/// is the bus's stop, and changes nothing.
#[inline(always)]
#[tactic(auto, unfolding(crate::specs::Space::stored))]
pub fn store<B: Bus>(
    regs: &mut Registers,
    core: &mut Core,
    bus: &mut B,
    at: u16,
    b: u8,
) -> Result<(), StopCause>
    ensures result { result ≡ (stored B.put_gives at b (whole regs.old core.old) bus.old).result }
    ensures core { whole regs.new core.new ≡ (stored B.put_gives at b (whole regs.old core.old) bus.old).cpu }
    ensures bus { bus.new ≡ (stored B.put_gives at b (whole regs.old core.old) bus.old).bus }
{
    if at > SREG {
        return bus.put(at, b);
    }
    if at == SREG {
        core.sreg = Sreg { bits: b };
        return Ok(());
    }
    store_low(regs, bus, at, b)
}

// A store at an address below SREG's.
#[inline(never)]
#[tactic(auto, unfolding(crate::specs::Space::stored))]
fn store_low<B: Bus>(regs: &mut Registers, bus: &mut B, at: u16, b: u8) -> Result<(), StopCause>
    requires { at < 0x5F }
    ensures result { result ≡ (stored B.put_gives at b (general regs.old) bus.old).result }
    ensures registers { regs.new ≡ registers_of (stored B.put_gives at b (general regs.old) bus.old).cpu }
    ensures bus { bus.new ≡ (stored B.put_gives at b (general regs.old) bus.old).bus }
{
    match at {
        0..=0x1F => set_reg(regs, Reg::numbered(at as u8), b),
        RAMPZ => regs.rampz = b % 2 == 1,
        SPL => regs.sp = regs.sp / 256 * 256 + u16::from(b),
        SPH => regs.sp = 256 * u16::from(b) + regs.sp % 256,
        _ => return bus.put(at, b),
    }
    Ok(())
}

/// Pushes `b`: stores it at the stack pointer, which is then one lower, modulo 65,536, also where the store was to the
/// stack pointer itself. An `Err` is the store's stop, and changes nothing.
#[inline(always)]
#[tactic(auto, unfolding(crate::specs::Space::pushed))]
pub fn push<B: Bus>(
    regs: &mut Registers,
    core: &mut Core,
    bus: &mut B,
    b: u8,
) -> Result<(), StopCause>
    ensures result { result ≡ (pushed B.put_gives b (whole regs.old core.old) bus.old).result }
    ensures core { whole regs.new core.new ≡ (pushed B.put_gives b (whole regs.old core.old) bus.old).cpu }
    ensures bus { bus.new ≡ (pushed B.put_gives b (whole regs.old core.old) bus.old).bus }
{
    let sp = regs.sp;
    match store(regs, core, bus, sp, b) {
        Ok(()) => {
            regs.sp = sp.wrapping_sub(1);
            Ok(())
        }
        Err(cause) => Err(cause),
    }
}

/// Pops a byte: the stack pointer is one higher, modulo 65,536, and the byte is loaded there. An `Err` is the load's
/// stop, and changes nothing.
#[inline(always)]
#[tactic(auto, unfolding(crate::specs::Space::popped))]
pub fn pop<B: Bus>(regs: &mut Registers, core: &Core, bus: &mut B) -> Result<u8, StopCause>
    ensures result { result ≡ (popped B.get_gives (whole regs.old core.now) bus.old).result }
    ensures core { whole regs.new core.now ≡ (popped B.get_gives (whole regs.old core.now) bus.old).cpu }
    ensures bus { bus.new ≡ (popped B.get_gives (whole regs.old core.now) bus.old).bus }
{
    let before = regs.sp;
    let sp = before.wrapping_add(1);
    regs.sp = sp;
    match load(regs, core, bus, sp) {
        Ok(b) => Ok(b),
        Err(cause) => {
            regs.sp = before;
            Err(cause)
        }
    }
}

/// Pushes a word, its low byte first, as calls and interrupts push the address to return to. An `Err` is the stop of a
/// push: what the push before it did stays.
#[inline(always)]
pub fn push_word<B: Bus>(
    regs: &mut Registers,
    core: &mut Core,
    bus: &mut B,
    word: u16,
) -> Result<(), StopCause>
    ensures result { result ≡ (pushed_word B.put_gives word (whole regs.old core.old) bus.old).result }
    ensures core { whole regs.new core.new ≡ (pushed_word B.put_gives word (whole regs.old core.old) bus.old).cpu }
    ensures bus { bus.new ≡ (pushed_word B.put_gives word (whole regs.old core.old) bus.old).bus }
{
    let (sreg, result) = push_word_apart(regs, *core, bus, word);
    core.sreg = sreg;
    result
}

// The same in a call of its own, since two stores are much code. The core comes by value, and SREG, the only part of it
// that a store may change, is in the answer: so a loop over instructions keeps both in registers of the host.
#[inline(never)]
fn push_word_apart<B: Bus>(
    regs: &mut Registers,
    core: Core,
    bus: &mut B,
    word: u16,
) -> (Sreg, Result<(), StopCause>)
    ensures result { result.1 ≡ (pushed_word B.put_gives word (whole regs.old core) bus.old).result }
    ensures core { whole regs.new (record core { sreg = result.0 }) ≡ (pushed_word B.put_gives word (whole regs.old core) bus.old).cpu }
    ensures bus { bus.new ≡ (pushed_word B.put_gives word (whole regs.old core) bus.old).bus }
{
    let mut there = core;
    let result = push_both(regs, &mut there, bus, word);
    (there.sreg, result)
}

/// Pushes a word as [`push_word`], where it is called: for a caller that knows the bytes to come to lie in memory.
#[inline(always)]
#[tactic(auto, unfolding(crate::specs::Sequence::pushed_word))]
pub fn push_both<B: Bus>(
    regs: &mut Registers,
    core: &mut Core,
    bus: &mut B,
    word: u16,
) -> Result<(), StopCause>
    ensures result { result ≡ (pushed_word B.put_gives word (whole regs.old core.old) bus.old).result }
    ensures core { whole regs.new core.new ≡ (pushed_word B.put_gives word (whole regs.old core.old) bus.old).cpu }
    ensures bus { bus.new ≡ (pushed_word B.put_gives word (whole regs.old core.old) bus.old).bus }
{
    push(regs, core, bus, (word % 256) as u8)?;
    push(regs, core, bus, (word / 256) as u8)
}

/// Pops a word, its high byte first. An `Err` is the stop of a pop: what the pop before it did stays.
#[inline(always)]
#[tactic(auto, unfolding(crate::specs::Sequence::popped_word))]
pub fn pop_word<B: Bus>(regs: &mut Registers, core: &Core, bus: &mut B) -> Result<u16, StopCause>
    ensures result { result ≡ (popped_word B.get_gives (whole regs.old core.now) bus.old).result }
    ensures core { whole regs.new core.now ≡ (popped_word B.get_gives (whole regs.old core.now) bus.old).cpu }
    ensures bus { bus.new ≡ (popped_word B.get_gives (whole regs.old core.now) bus.old).bus }
{
    let above = pop(regs, core, bus)?;
    let below = pop(regs, core, bus)?;
    Ok(256 * u16::from(above) + u16::from(below))
}
