// One instruction over the core and a data space: the one table of all instructions.
ghost use Rattle.std.specs.Prelude.{◌≡◌, ◌≤◌, List, ℕ, Ok, Some, false, is_some, IfOk, IfSome, IfNone};
ghost use Rattle.data_space.specs.Core.{advanced, core_of, lone, whole};
ghost use Rattle.data_space.specs.Sequence.{done};
ghost use Rattle.avr_decoder.specs.declared.op.Op.TheVariants as op;
ghost use Rattle.avr_core.specs.declared.instructions.After.TheVariants as after;
ghost use Rattle.avr_core.specs.FlowShapes.{branched};
ghost use Rattle.avr_core.specs.Execute.{after_at, after_branch, after_cycles, after_jump, after_of, executed_over, is_plain, is_short_back, left_by};

use crate::accesses::{displaced, io_address, load_at, retire, set_bit, store_at};
use crate::calls::{reti, z_pointer};
use crate::flash::{
    load_extended, load_extended_post_increment, load_program, load_program_post_increment,
};
use crate::jumps::{bit, branch, jump, relative_to, skip, skip_by_io, sleep};
use crate::shapes::{
    add, compare, compare_with_carry, copy, copy_pair, load_bit, multiply, put_bits, put_byte,
    put_word, set_flag, store_bit, subtract, subtract_with_carry, swap,
};
use crate::sram_accesses::{
    Accessed, called, called_at_z, called_near, load, load_before, load_on, pop, push, returned,
    store, store_before, store_on,
};
use arith_step::{MulKind, adiw, asr, com, dec, inc, lsr, neg, ror, sbiw};
use avr_base::{Reg, Sreg, StopCause};
use avr_decoder::{Class, Op};
use data_space::{Bus, Core, Cpu, Done, Registers, pair, reg};
use ihex_loader::ProgramMemory;

/// What an instruction may leave that a loop over instructions looks at.
#[derive(Clone, Copy)]
pub enum After {
    /// Nothing, after one cycle: the program goes on with the next word, the flag I is as it was, and the data space was
    /// not accessed.
    Single,
    /// Nothing, after its cycles, and of the data space at most the internal SRAM was accessed.
    Nothing,
    /// The program may go on a few words further back.
    Back,
    /// A load, which may be of a device's register, and move what that ends next.
    Loaded,
    /// A store, which may be to SREG or to a device's register, or a flag that is set or cleared.
    Store,
    /// The flag I on, by SEI or RETI: the next instruction is executed before any interrupt.
    Enabled,
}

/// What an instruction leaves, and what it reports, where it is one of those that are executed.
pub type Executed = (After, Option<Result<Done, StopCause>>);

// The end of an instruction of one word on registers, after so many cycles.
#[inline]
fn retired(cycles: u8, core: &mut Core) -> Executed
    ensures core { core.new ≡ core_of (advanced 1 (lone core.old)) }
    ensures reported { result ≡ (after_cycles cycles, Some (Ok (done cycles))) }
{
    let reported = retire(1, cycles, core);
    if cycles == 1 {
        return (After::Single, Some(Ok(reported)));
    }
    ended(reported)
}

// An instruction that cannot stop, and stores nothing.
#[inline]
fn ended(reported: Done) -> Executed
    ensures { result ≡ (after.Nothing, Some (Ok reported)) }
{
    (After::Nothing, Some(Ok(reported)))
}

// How many words a loop that waits has at most.
const SHORT: i16 = 8;

// Whether a jump over `k` words goes back, and not far.
#[inline]
fn is_short_back(k: i16) -> bool
    ensures { result ≡ is_short_back k }
{
    k < 0 && k >= -SHORT
}

// A jump, or a branch that is taken, over `k` words.
#[inline]
fn jumped(k: i16, reported: Done) -> Executed
    ensures { result ≡ (after_jump k, Some (Ok reported)) }
{
    if is_short_back(k) {
        (After::Back, Some(Ok(reported)))
    } else {
        ended(reported)
    }
}

// A branch over `k` words where `on`. It stands in both of its branches, so that the host jumps too: one that is not
// taken is then as short as an instruction on registers.
#[inline(always)]
fn branched(on: bool, k: i16, core: &mut Core) -> Executed
    ensures after { result.0 ≡ after_branch on k }
    ensures reported { result.1 ≡ Some (Ok (branched on k (lone core.old)).0) }
    ensures core { core.new ≡ core_of (branched on k (lone core.old)).1 }
{
    if on {
        jumped(k, branch(true, k, core))
    } else {
        (After::Single, Some(Ok(branch(false, k, core))))
    }
}

// An instruction that accesses the data space, maybe only the internal SRAM of it.
#[inline]
fn accessed(access: Accessed) -> Executed
    ensures { result ≡ (access.0, Some access.1) }
{
    (access.0, Some(access.1))
}

// An instruction that may stop, and loads a byte.
#[inline]
fn loaded(reported: Result<Done, StopCause>) -> Executed
    ensures { result ≡ (after.Loaded, Some reported) }
{
    (After::Loaded, Some(reported))
}

// An instruction that may stop, and stores a byte, or sets or clears a flag.
#[inline]
fn stored(reported: Result<Done, StopCause>) -> Executed
    ensures { result ≡ (after.Store, Some reported) }
{
    (After::Store, Some(reported))
}

// SEI or RETI.
#[inline]
fn enabled(reported: Result<Done, StopCause>) -> Executed
    ensures { result ≡ (after.Enabled, Some reported) }
{
    (After::Enabled, Some(reported))
}

// The end of BSET of flag `s`, which is SEI where that is I.
#[inline(always)]
fn flag_set(s: u8, reported: Done) -> Executed
    ensures { result ≡ (after_of (op.Bset s), Some (Ok reported)) }
{
    if s == 7 {
        enabled(Ok(reported))
    } else {
        stored(Ok(reported))
    }
}

/// Executes an instruction (AVR Instruction Set Manual, its operation, flags and cycles) over the core and a data
/// space. `None` for SLEEP and for one that halts the node; these change nothing.
///
/// The program counter, a word address, goes on modulo 65,536. A flag number and a bit number count modulo 8; the pair
/// of r31 is r31 and r0. A call pushes the low byte of the return address first, and ICALL reads Z after that. A skip
/// leaves out one word or two, by the width of the word behind it. Where rD is half of the pointer that moves, which no
/// opcode means, the later of the two changes stays.
///
/// An `Err` is the stop of an access. What the accesses before it did stays, with the stack pointer that they left;
/// nothing else of the instruction happens, so the program counter is still the instruction's.
#[inline(always)]
#[tactic(auto, unfolding(crate::specs::Execute::executed_over, crate::specs::ArithShapes::sets_flag, crate::specs::ArithShapes::swaps, crate::specs::ArithTable::effect, crate::specs::FlowShapes::branched, crate::specs::FlowShapes::skipping, crate::specs::FlowTable::flow_effect, crate::specs::MemoryTable::memory_effect))]
pub fn execute_plain<P: ProgramMemory, B: Bus>(
    op: &Op,
    program: &P,
    regs: &mut Registers,
    core: &mut Core,
    bus: &mut B,
) -> Executed
    ensures { record { after = result.0; reported = result.1; cpu = whole regs.new core.new; bus = bus.new } ≡ left_by B.get_gives B.put_gives (P.image program.now).bytes op.now (whole regs.old core.old) bus.old }
{
    let x = Reg::numbered(26);
    let y = Reg::numbered(28);
    let z = Reg::numbered(30);
    match *op {
        Op::Add { d, r } => retired(add(d, reg(regs, r), false, regs, core), core),
        Op::Adc { d, r } => retired(
            add(d, reg(regs, r), core.sreg.has(Sreg::C), regs, core),
            core,
        ),
        Op::Sub { d, r } => retired(subtract(d, reg(regs, r), regs, core), core),
        Op::Subi { d, k } => retired(subtract(d, k, regs, core), core),
        Op::Sbc { d, r } => retired(subtract_with_carry(d, reg(regs, r), regs, core), core),
        Op::Sbci { d, k } => retired(subtract_with_carry(d, k, regs, core), core),
        Op::Cp { d, r } => retired(compare(d, reg(regs, r), regs, core), core),
        Op::Cpi { d, k } => retired(compare(d, k, regs, core), core),
        Op::Cpc { d, r } => retired(compare_with_carry(d, reg(regs, r), regs, core), core),
        Op::And { d, r } => retired(put_bits(d, reg(regs, d) & reg(regs, r), regs, core), core),
        Op::Andi { d, k } => retired(put_bits(d, reg(regs, d) & k, regs, core), core),
        Op::Or { d, r } => retired(put_bits(d, reg(regs, d) | reg(regs, r), regs, core), core),
        Op::Ori { d, k } => retired(put_bits(d, reg(regs, d) | k, regs, core), core),
        Op::Eor { d, r } => retired(put_bits(d, reg(regs, d) ^ reg(regs, r), regs, core), core),
        Op::Com { d } => {
            let (byte, sreg) = com(reg(regs, d), core.sreg);
            retired(put_byte(d, byte, sreg, regs, core), core)
        }
        Op::Neg { d } => {
            let (byte, sreg) = neg(reg(regs, d), core.sreg);
            retired(put_byte(d, byte, sreg, regs, core), core)
        }
        Op::Inc { d } => {
            let (byte, sreg) = inc(reg(regs, d), core.sreg);
            retired(put_byte(d, byte, sreg, regs, core), core)
        }
        Op::Dec { d } => {
            let (byte, sreg) = dec(reg(regs, d), core.sreg);
            retired(put_byte(d, byte, sreg, regs, core), core)
        }
        Op::Lsr { d } => {
            let (byte, sreg) = lsr(reg(regs, d), core.sreg);
            retired(put_byte(d, byte, sreg, regs, core), core)
        }
        Op::Ror { d } => {
            let (byte, sreg) = ror(reg(regs, d), core.sreg);
            retired(put_byte(d, byte, sreg, regs, core), core)
        }
        Op::Asr { d } => {
            let (byte, sreg) = asr(reg(regs, d), core.sreg);
            retired(put_byte(d, byte, sreg, regs, core), core)
        }
        Op::Swap { d } => retired(swap(d, regs), core),
        Op::Adiw { d, k } => retired(
            put_word(d, adiw(pair(regs, d), k, core.sreg), regs, core),
            core,
        ),
        Op::Sbiw { d, k } => retired(
            put_word(d, sbiw(pair(regs, d), k, core.sreg), regs, core),
            core,
        ),
        Op::Mul { d, r } => retired(multiply(MulKind::Mul, d, r, regs, core), core),
        Op::Muls { d, r } => retired(multiply(MulKind::Muls, d, r, regs, core), core),
        Op::Mulsu { d, r } => retired(multiply(MulKind::Mulsu, d, r, regs, core), core),
        Op::Fmul { d, r } => retired(multiply(MulKind::Fmul, d, r, regs, core), core),
        Op::Fmuls { d, r } => retired(multiply(MulKind::Fmuls, d, r, regs, core), core),
        Op::Fmulsu { d, r } => retired(multiply(MulKind::Fmulsu, d, r, regs, core), core),
        Op::Mov { d, r } => retired(copy(d, reg(regs, r), regs), core),
        Op::Ldi { d, k } => retired(copy(d, k, regs), core),
        Op::Movw { d, r } => retired(copy_pair(d, r, regs), core),
        Op::Bld { d, b } => retired(load_bit(d, b % 8, regs, core), core),
        Op::Bst { d, b } => retired(store_bit(d, b % 8, regs, core), core),
        Op::Nop | Op::Wdr => retired(1, core),
        Op::Jmp { k } => ended(jump(3, k, core)),
        Op::Rjmp { k } => jumped(k, jump(2, relative_to(k, core), core)),
        Op::Ijmp => ended(jump(2, z_pointer(regs), core)),
        Op::Brbs { s, k } => branched(bit(true, s % 8, core.sreg.bits), k, core),
        Op::Brbc { s, k } => branched(bit(false, s % 8, core.sreg.bits), k, core),
        Op::Cpse { d, r } => ended(skip(reg(regs, d) == reg(regs, r), program.as_flash(), core)),
        Op::Sbrs { r, b } => ended(skip(bit(true, b % 8, reg(regs, r)), program.as_flash(), core)),
        Op::Sbrc { r, b } => ended(skip(bit(false, b % 8, reg(regs, r)), program.as_flash(), core)),
        Op::Sbis { a, b } => loaded(skip_by_io(
            a,
            b % 8,
            true,
            program.as_flash(),
            regs,
            core,
            bus,
        )),
        Op::Sbic { a, b } => loaded(skip_by_io(
            a,
            b % 8,
            false,
            program.as_flash(),
            regs,
            core,
            bus,
        )),
        Op::Call { k } => accessed(called(k, regs, core, bus)),
        Op::Rcall { k } => accessed(called_near(k, regs, core, bus)),
        Op::Icall => accessed(called_at_z(regs, core, bus)),
        Op::Ret => accessed(returned(regs, core, bus)),
        Op::LdX { d } => accessed(load(d, pair(regs, x), 1, 2, regs, core, bus)),
        Op::LddY { d, q } => accessed(load(d, displaced(y, q, regs), 1, 2, regs, core, bus)),
        Op::LddZ { d, q } => accessed(load(d, displaced(z, q, regs), 1, 2, regs, core, bus)),
        Op::Lds { d, k } => accessed(load(d, k, 2, 2, regs, core, bus)),
        Op::InIo { d, a } => loaded(load_at(d, io_address(a), 1, 1, regs, core, bus)),
        Op::LdXInc { d } => accessed(load_on(d, x, regs, core, bus)),
        Op::LdYInc { d } => accessed(load_on(d, y, regs, core, bus)),
        Op::LdZInc { d } => accessed(load_on(d, z, regs, core, bus)),
        Op::LdXDec { d } => accessed(load_before(d, x, regs, core, bus)),
        Op::LdYDec { d } => accessed(load_before(d, y, regs, core, bus)),
        Op::LdZDec { d } => accessed(load_before(d, z, regs, core, bus)),
        Op::StX { r } => accessed(store(pair(regs, x), reg(regs, r), 1, 2, regs, core, bus)),
        Op::StdY { q, r } => accessed(store(
            displaced(y, q, regs),
            reg(regs, r),
            1,
            2,
            regs,
            core,
            bus,
        )),
        Op::StdZ { q, r } => accessed(store(
            displaced(z, q, regs),
            reg(regs, r),
            1,
            2,
            regs,
            core,
            bus,
        )),
        Op::Sts { k, r } => accessed(store(k, reg(regs, r), 2, 2, regs, core, bus)),
        Op::OutIo { a, r } => stored(store_at(io_address(a), reg(regs, r), 1, 1, regs, core, bus)),
        Op::StXInc { r } => accessed(store_on(x, r, regs, core, bus)),
        Op::StYInc { r } => accessed(store_on(y, r, regs, core, bus)),
        Op::StZInc { r } => accessed(store_on(z, r, regs, core, bus)),
        Op::StXDec { r } => accessed(store_before(x, r, regs, core, bus)),
        Op::StYDec { r } => accessed(store_before(y, r, regs, core, bus)),
        Op::StZDec { r } => accessed(store_before(z, r, regs, core, bus)),
        Op::Push { r } => accessed(push(r, regs, core, bus)),
        Op::Pop { d } => accessed(pop(d, regs, core, bus)),
        Op::Sbi { a, b } => stored(set_bit(a, b % 8, true, regs, core, bus)),
        Op::Cbi { a, b } => stored(set_bit(a, b % 8, false, regs, core, bus)),
        Op::LpmR0 => ended(load_program(Reg::numbered(0), program.as_flash(), regs, core)),
        Op::LpmZ { d } => ended(load_program(d, program.as_flash(), regs, core)),
        Op::LpmZInc { d } => ended(load_program_post_increment(d, program.as_flash(), regs, core)),
        Op::ElpmR0 => ended(load_extended(Reg::numbered(0), program.as_flash(), regs, core)),
        Op::ElpmZ { d } => ended(load_extended(d, program.as_flash(), regs, core)),
        Op::ElpmZInc { d } => ended(load_extended_post_increment(
            d,
            program.as_flash(),
            regs,
            core,
        )),
        Op::Bclr { s } => stored(Ok(retire(1, set_flag(s % 8, false, core), core))),
        Op::Bset { s } => flag_set(s, retire(1, set_flag(s % 8, true, core), core)),
        Op::Reti => enabled(reti(regs, core, bus)),
        _ => (After::Nothing, None),
    }
}

// The same, clause by clause.
#[inline(always)]
fn told_plain<P: ProgramMemory, B: Bus>(
    op: &Op,
    program: &P,
    regs: &mut Registers,
    core: &mut Core,
    bus: &mut B,
) -> Executed
    ensures which { is_some result.1 ≡ is_plain op.now }
    ensures some { IfSome result.1 (λ r. record { result = r; cpu = whole regs.new core.new; bus = bus.new } ≡ executed_over B.get_gives B.put_gives (P.image program.now).bytes op.now (whole regs.old core.old) bus.old) }
    ensures none { IfNone result.1 ((whole regs.new core.new ≡ whole regs.old core.old) × (bus.new ≡ bus.old)) }
{
    execute_plain(op, program, regs, core, bus)
}

// SLEEP, or an instruction that halts the node.
#[tactic(auto, unfolding(crate::specs::Execute::executed_over, crate::specs::ArithShapes::sets_flag, crate::specs::ArithTable::effect, crate::specs::FlowTable::flow_effect))]
fn execute_other<B: Bus>(
    op: &Op,
    regs: &mut Registers,
    core: &mut Core,
    bus: &mut B,
) -> Result<Done, StopCause>
    requires { is_plain op.now ≡ false }
    ensures outcome { (flash : List ℕ) → record { result = result; cpu = whole regs.new core.new; bus = bus.new } ≡ executed_over B.get_gives B.put_gives flash op.now (whole regs.old core.old) bus.old }
{
    match *op {
        Op::Sleep => Ok(sleep(core)),
        _ => match op.class() {
            Class::Halting(cause) => Err(cause),
            Class::Arith | Class::Flow | Class::Memory => unreachable!(),
        },
    }
}

/// Executes an instruction of any class, as [`execute_plain`] does. One that halts the node is an `Err`, and changes
/// nothing.
#[inline(never)]
pub fn execute<P: ProgramMemory, B: Bus>(
    op: &Op,
    program: &P,
    cpu: &mut Cpu,
    bus: &mut B,
) -> Result<Done, StopCause>
    ensures outcome { record { result = result; cpu = cpu.new; bus = bus.new } ≡ executed_over B.get_gives B.put_gives (P.image program.now).bytes op.now cpu.old bus.old }
    // so the cycles can be counted down
    ensures takes { IfOk result (λ d. 1 ≤ d.cycles) }
{
    let (mut regs, mut core) = cpu.parts();
    let result = match told_plain(op, program, &mut regs, &mut core, bus) {
        (_, Some(result)) => result,
        (_, None) => execute_other(op, &mut regs, &mut core, bus),
    };
    *cpu = Cpu::of_parts(&regs, core);
    result
}

/// Executes an instruction as [`execute`] does. For those of the commonest loops that wait, of which a trial executes
/// few, the frame of the whole table would cost more than they do.
#[inline]
#[tactic(auto, unfolding(crate::specs::Execute::executed_over, crate::specs::FlowTable::flow_effect))]
pub fn execute_waiting<P: ProgramMemory, B: Bus>(
    op: &Op,
    program: &P,
    cpu: &mut Cpu,
    bus: &mut B,
) -> Result<Done, StopCause>
    ensures outcome { record { result = result; cpu = cpu.new; bus = bus.new } ≡ executed_over B.get_gives B.put_gives (P.image program.now).bytes op.now cpu.old bus.old }
{
    match *op {
        Op::Rjmp { k } => {
            let (_, mut core) = cpu.parts();
            let done = jump(2, relative_to(k, &core), &mut core);
            cpu.pc = core.pc;
            Ok(done)
        }
        Op::Sbis { a, b } | Op::Sbic { a, b } => {
            let on = matches!(op, Op::Sbis { .. });
            let (regs, mut core) = cpu.parts();
            let result = skip_by_io(a, b % 8, on, program.as_flash(), &regs, &mut core, bus);
            cpu.sreg = core.sreg;
            cpu.pc = core.pc;
            result
        }
        _ => execute(op, program, cpu, bus),
    }
}
