// Jumps, branches and skips: each gives what the instruction reports. The core comes last, since the operands before it
// are read from it.
ghost use Rattle.std.specs.Prelude.{◌≡◌, ◌<◌, ◌≤◌, true, IfOk};
ghost use Rattle.data_space.specs.Core.{advanced, core_of, lone, whole};
ghost use Rattle.data_space.specs.Sequence.{done};
ghost use Rattle.avr_core.specs.FlowShapes.{at_pc, reached, bit_is, branched, jumped, relative, skipped, skipping, skips_by_io};

use avr_base::{ByteBits, IO_START, StopCause};
use avr_decoder::width;
use data_space::{Bus, Core, Done, Registers, load};
use ihex_loader::Flash;

// What an instruction other than SLEEP reports.
#[inline]
fn took(cycles: u8) -> Done
    ensures { result ≡ done cycles }
{
    Done {
        cycles,
        sleep: false,
    }
}

/// The word address `k` words behind the next word, modulo 65,536.
#[inline]
pub fn relative_to(k: i16, core: &Core) -> u16
    ensures { result ≡ relative k (lone core.now) }
{
    core.pc.wrapping_add(1).wrapping_add(k.cast_unsigned())
}

/// Whether bit `b` (0 to 7) of a byte is `on`.
#[inline]
pub fn bit(on: bool, b: u8, byte: u8) -> bool
    requires { b < 8 }
    ensures { result ≡ bit_is on b byte }
{
    let byte = ByteBits { byte };
    if on { byte.has(b) } else { !byte.has(b) }
}

/// The program goes on at the word address `pc`, after so many cycles.
#[inline]
pub fn jump(cycles: u8, pc: u16, core: &mut Core) -> Done
    ensures { (result, core.new) ≡ reached (jumped cycles pc (lone core.old)) }
{
    core.pc = pc;
    took(cycles)
}

/// A branch: where `on` the program goes on `k` words behind the next word, after two cycles; else with the next word,
/// after one.
#[inline]
#[tactic(auto, unfolding(crate::specs::FlowShapes::branched))]
pub fn branch(on: bool, k: i16, core: &mut Core) -> Done
    ensures { (result, core.new) ≡ reached (branched on k (lone core.old)) }
{
    if on {
        let pc = relative_to(k, core);
        return jump(2, pc, core);
    }
    core.advance(1);
    took(1)
}

// The words by which the program goes on that leaves out the next instruction where `on`.
#[inline]
#[tactic(auto, unfolding(crate::specs::FlowShapes::skipping))]
fn words_on(on: bool, flash: &Flash, core: &Core) -> u8
    ensures { result ≡ skipping flash.now.bytes on (lone core.now) }
{
    if on {
        1 + width(flash.word(core.pc.wrapping_add(1)))
    } else {
        1
    }
}

/// A skip: where `on` it leaves out the next instruction, of one word or two, and takes as many cycles more; else one
/// cycle.
#[inline]
pub fn skip(on: bool, flash: &Flash, core: &mut Core) -> Done
    ensures { (result, core.new) ≡ reached (skipped flash.now.bytes on (lone core.old)) }
{
    let words = words_on(on, flash, core);
    core.advance(u16::from(words));
    took(words)
}

/// SBIS and SBIC: a skip where bit `b` (0 to 7) of the register at the I/O address `a` is `on`. `Err` where its read
/// stops.
#[inline]
#[tactic(auto, unfolding(crate::specs::FlowShapes::skips_by_io, crate::specs::FlowShapes::skipping))]
pub fn skip_by_io<B: Bus>(
    a: u8,
    b: u8,
    on: bool,
    flash: &Flash,
    regs: &Registers,
    core: &mut Core,
    bus: &mut B,
) -> Result<Done, StopCause>
    requires { b < 8 }
    ensures { record { result = result; cpu = whole regs.now core.new; bus = bus.new } ≡ skips_by_io B.get_gives flash.now.bytes a b on (whole regs.now core.old) bus.old }
{
    let byte = load(regs, core, bus, IO_START + u16::from(a))?;
    Ok(skip(bit(on, b, byte), flash, core))
}

/// SLEEP: the program goes on with the next word, after one cycle. The answer says that it was SLEEP, which the caller
/// acts on.
#[inline]
pub fn sleep(core: &mut Core) -> Done
    ensures core { core.new ≡ core_of (advanced 1 (lone core.old)) }
    ensures reported { result ≡ record { cycles = 1; sleep = true } }
{
    core.advance(1);
    Done {
        cycles: 1,
        sleep: true,
    }
}
