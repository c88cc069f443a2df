// The shapes of instructions on registers: each takes its operands from the general registers and SREG, computes a
// result and its flags, and puts them where they go. Each gives the clock cycles that it takes. The registers and the
// core come last, since the operands before them are read from them.
ghost use Rattle.std.specs.Prelude.{◌≡◌, ◌<◌};
ghost use Rattle.data_space.specs.Core.{core_of, general, lone, pair_at, registers_of, whole, with_pair, with_reg};
ghost use Rattle.avr_core.specs.ArithShapes.{adds, becomes_bits, compares, compares_with_carry, loads_bit, multiplies, sets_flag, stores_bit, subtracts, subtracts_with_carry, swaps, to_pair, to_reg};

use arith_step::MulKind;
use avr_base::{ByteBits, Reg, Sreg};
use data_space::{Core, Registers, pair, reg, set_pair, set_reg};

// The register r0, the lower one of the pair that products go to.
#[inline]
fn r0() -> Reg
    ensures { result ≡ 0 }
{
    Reg::numbered(0)
}

/// Puts a byte into rD and the flags that it was computed with into SREG. One cycle.
#[inline]
pub fn put_byte(d: Reg, value: u8, s: Sreg, regs: &mut Registers, core: &mut Core) -> u8
    ensures core { whole regs.new core.new ≡ to_reg d (value, s) (whole regs.old core.old) }
    ensures cycles { result ≡ 1 }
{
    set_reg(regs, d, value);
    core.sreg = s;
    1
}

/// Puts a word into the pair whose lower register is rD, and the flags that it was computed with into SREG. Two cycles.
#[inline(always)]
pub fn put_word(d: Reg, computed: (u16, Sreg), regs: &mut Registers, core: &mut Core) -> u8
    ensures core { whole regs.new core.new ≡ to_pair d computed (whole regs.old core.old) }
    ensures cycles { result ≡ 2 }
{
    set_pair(regs, d, computed.0);
    core.sreg = computed.1;
    2
}

/// ADD, and ADC where `carry` is the flag C: rD becomes rD + `b` + `carry` modulo 256. One cycle.
#[inline(always)]
#[tactic(auto, unfolding(crate::specs::ArithShapes::adds))]
pub fn add(d: Reg, b: u8, carry: bool, regs: &mut Registers, core: &mut Core) -> u8
    ensures core { whole regs.new core.new ≡ adds d b carry (whole regs.old core.old) }
    ensures cycles { result ≡ 1 }
{
    let computed = arith_step::add(reg(regs, d), b, carry, core.sreg);
    put_byte(d, computed.0, computed.1, regs, core)
}

/// SUB and SUBI: rD becomes rD - `b` modulo 256. One cycle.
#[inline(always)]
#[tactic(auto, unfolding(crate::specs::ArithShapes::subtracts))]
pub fn subtract(d: Reg, b: u8, regs: &mut Registers, core: &mut Core) -> u8
    ensures core { whole regs.new core.new ≡ subtracts d b (whole regs.old core.old) }
    ensures cycles { result ≡ 1 }
{
    let computed = arith_step::sub(reg(regs, d), b, false, false, core.sreg);
    put_byte(d, computed.0, computed.1, regs, core)
}

/// SBC and SBCI: rD becomes rD - `b` - C modulo 256; Z stays set only where it was and the result is 0. One cycle.
#[inline(always)]
#[tactic(auto, unfolding(crate::specs::ArithShapes::subtracts_with_carry))]
pub fn subtract_with_carry(d: Reg, b: u8, regs: &mut Registers, core: &mut Core) -> u8
    ensures core { whole regs.new core.new ≡ subtracts_with_carry d b (whole regs.old core.old) }
    ensures cycles { result ≡ 1 }
{
    let computed = arith_step::sub(reg(regs, d), b, core.sreg.has(Sreg::C), true, core.sreg);
    put_byte(d, computed.0, computed.1, regs, core)
}

/// CP and CPI: the flags of rD - `b`; no register changes. One cycle.
#[inline(always)]
#[tactic(auto, unfolding(crate::specs::ArithShapes::compares))]
pub fn compare(d: Reg, b: u8, regs: &Registers, core: &mut Core) -> u8
    ensures core { whole regs.now core.new ≡ compares d b (whole regs.now core.old) }
    ensures cycles { result ≡ 1 }
{
    core.sreg = arith_step::sub(reg(regs, d), b, false, false, core.sreg).1;
    1
}

/// CPC: the flags of rD - `b` - C, where Z stays set only where it was and the result is 0; no register changes. One
/// cycle.
#[inline(always)]
#[tactic(auto, unfolding(crate::specs::ArithShapes::compares_with_carry))]
pub fn compare_with_carry(d: Reg, b: u8, regs: &Registers, core: &mut Core) -> u8
    ensures core { whole regs.now core.new ≡ compares_with_carry d b (whole regs.now core.old) }
    ensures cycles { result ≡ 1 }
{
    core.sreg = arith_step::sub(reg(regs, d), b, core.sreg.has(Sreg::C), true, core.sreg).1;
    1
}

/// AND, OR, EOR, and the forms with a constant: rD becomes `bits`; V is cleared, C, H, T and I stay. One cycle.
#[inline(always)]
#[tactic(auto, unfolding(crate::specs::ArithShapes::becomes_bits))]
pub fn put_bits(d: Reg, bits: u8, regs: &mut Registers, core: &mut Core) -> u8
    ensures core { whole regs.new core.new ≡ becomes_bits d bits (whole regs.old core.old) }
    ensures cycles { result ≡ 1 }
{
    put_byte(d, bits, arith_step::logic(bits, core.sreg), regs, core)
}

/// MUL, MULS, MULSU and their fractional forms: r1:r0 becomes the product of rD and rR, with C and Z. Two cycles.
#[inline]
#[tactic(auto, unfolding(crate::specs::ArithShapes::multiplies))]
pub fn multiply(kind: MulKind, d: Reg, r: Reg, regs: &mut Registers, core: &mut Core) -> u8
    ensures core { whole regs.new core.new ≡ multiplies kind d r (whole regs.old core.old) }
    ensures cycles { result ≡ 2 }
{
    let computed = arith_step::mul(kind, reg(regs, d), reg(regs, r), core.sreg);
    put_word(r0(), computed, regs, core)
}

/// BSET and BCLR: flag `s` (0 to 7) of SREG becomes `on`. One cycle.
#[inline(always)]
#[tactic(auto, unfolding(crate::specs::ArithShapes::sets_flag))]
pub fn set_flag(s: u8, on: bool, core: &mut Core) -> u8
    requires { s < 8 }
    ensures core { core.new ≡ core_of (sets_flag s on (lone core.old)) }
    ensures cycles { result ≡ 1 }
{
    core.sreg = core.sreg.with(s, on);
    1
}

/// BLD: bit `b` (0 to 7) of rD becomes T. One cycle.
#[inline(always)]
#[tactic(auto, unfolding(crate::specs::ArithShapes::loads_bit))]
pub fn load_bit(d: Reg, b: u8, regs: &mut Registers, core: &Core) -> u8
    requires { b < 8 }
    ensures core { whole regs.new core.now ≡ loads_bit d b (whole regs.old core.now) }
    ensures cycles { result ≡ 1 }
{
    let byte = ByteBits { byte: reg(regs, d) };
    set_reg(regs, d, byte.with(b, core.sreg.has(Sreg::T)));
    1
}

/// BST: T becomes bit `b` (0 to 7) of rD. One cycle.
#[inline(always)]
#[tactic(auto, unfolding(crate::specs::ArithShapes::sets_flag))]
pub fn store_bit(d: Reg, b: u8, regs: &Registers, core: &mut Core) -> u8
    requires { b < 8 }
    ensures core { whole regs.now core.new ≡ stores_bit d b (whole regs.now core.old) }
    ensures cycles { result ≡ 1 }
{
    let byte = ByteBits { byte: reg(regs, d) };
    set_flag(Sreg::T, byte.has(b), core)
}

/// SWAP: the high and the low four bits of rD change places; no flag changes. One cycle.
#[inline]
#[tactic(auto, unfolding(crate::specs::ArithShapes::swaps))]
pub fn swap(d: Reg, regs: &mut Registers) -> u8
    ensures core { regs.new ≡ registers_of (swaps d (general regs.old)) }
    ensures cycles { result ≡ 1 }
{
    let byte = reg(regs, d);
    set_reg(regs, d, byte % 16 * 16 + byte / 16);
    1
}

/// MOV and LDI: rD becomes `value`; no flag changes. One cycle.
#[inline]
pub fn copy(d: Reg, value: u8, regs: &mut Registers) -> u8
    ensures core { regs.new ≡ registers_of (with_reg d value (general regs.old)) }
    ensures cycles { result ≡ 1 }
{
    set_reg(regs, d, value);
    1
}

/// MOVW: the pair whose lower register is rD becomes that of rR; no flag changes. One cycle.
#[inline]
pub fn copy_pair(d: Reg, r: Reg, regs: &mut Registers) -> u8
    ensures core { regs.new ≡ registers_of (with_pair d (pair_at r (general regs.old)) (general regs.old)) }
    ensures cycles { result ≡ 1 }
{
    let word = pair(regs, r);
    set_pair(regs, d, word);
    1
}
