// The instruction that a program word is, told by fields of its bits.
ghost use Rattle.std.specs.Prelude.{◌≡◌, ◌≢◌, ◌/◌, ◌%◌, ◌≤◌, ◌==◌, length, if◌then◌else◌};
ghost use Rattle.avr_decoder.specs.Opcodes.{op_at, rows_at};
ghost use Rattle.avr_decoder.specs.Words.{is_two_words};
ghost use Rattle.avr_decoder.specs.declared.op.Op.TheVariants.{Undefined};

use crate::Op;
use crate::fields::{
    address, branch_offset, constant, displacement, flag, jump_offset, low_address, low_three,
    pair_d, pair_r, reg_8_4, reg_9_3_0, short_constant, short_d, short_r, upper_d, upper_r,
    word_pair,
};

// The numbers of the pointers' pairs of registers: r27:r26, r29:r28 and r31:r30.
const X_PAIR: u16 = 13;

const Y_PAIR: u16 = 14;

const Z_PAIR: u16 = 15;

/// The instruction whose first word is `word`. `next` is the word behind it, which is part of the instruction where
/// `width(word)` is 2 and is not looked at else. Total: a word of no instruction is `Reserved`, and one whose result
/// the manual leaves undefined is `Undefined` (AVR Instruction Set Manual).
#[inline]
#[tactic(auto, using(crate::proofs::Constants::constants_rows))]
pub fn decode(word: u16, next: u16) -> Op
    ensures { result ≡ op_at word next }
{
    match word >> 12 {
        0x0 => page_0(word, next),
        0x1 => two_registers(word, next),
        0x2 => two_registers(word, next),
        0x3 => Op::Cpi {
            d: upper_d(word),
            k: constant(word),
        },
        0x4 => Op::Sbci {
            d: upper_d(word),
            k: constant(word),
        },
        0x5 => Op::Subi {
            d: upper_d(word),
            k: constant(word),
        },
        0x6 => Op::Ori {
            d: upper_d(word),
            k: constant(word),
        },
        0x7 => Op::Andi {
            d: upper_d(word),
            k: constant(word),
        },
        0x8 => displaced(word, next),
        0x9 => page_9(word, next),
        0xA => displaced(word, next),
        0xB => in_or_out(word, next),
        0xC => Op::Rjmp {
            k: jump_offset(word),
        },
        0xD => Op::Rcall {
            k: jump_offset(word),
        },
        0xE => Op::Ldi {
            d: upper_d(word),
            k: constant(word),
        },
        _ => page_f(word, next),
    }
}

/// Words 0x0000 to 0x0FFF.
#[inline]
#[tactic(auto, using(crate::proofs::TwoRegisters::two_registers_rows))]
fn page_0(word: u16, next: u16) -> Op
    requires { word / 4096 ≡ 0 }
    ensures { result ≡ op_at word next }
{
    match word >> 8 {
        0 => {
            if word == 0 {
                Op::Nop
            } else {
                Op::Reserved { word }
            }
        }
        1 => Op::Movw {
            d: pair_d(word),
            r: pair_r(word),
        },
        2 => Op::Muls {
            d: upper_d(word),
            r: upper_r(word),
        },
        3 => short_product(word, next),
        _ => carry_or_sum(word, next),
    }
}

/// Words 0x0300 to 0x03FF: the products of r16 to r23.
#[inline]
fn short_product(word: u16, next: u16) -> Op
    requires { word / 256 ≡ 3 }
    ensures { result ≡ op_at word next }
{
    let d = short_d(word);
    let r = short_r(word);
    if word >> 7 == 6 {
        if word / 8 % 2 == 0 {
            Op::Mulsu { d, r }
        } else {
            Op::Fmul { d, r }
        }
    } else if word / 8 % 2 == 0 {
        Op::Fmuls { d, r }
    } else {
        Op::Fmulsu { d, r }
    }
}

/// Words 0x0400 to 0x0FFF.
#[inline]
#[tactic(auto, using(crate::proofs::TwoRegisters::two_registers_rows))]
fn carry_or_sum(word: u16, next: u16) -> Op
    requires low { 1 ≤ word / 1024 }
    requires high { word / 1024 ≤ 3 }
    ensures { result ≡ op_at word next }
{
    let d = reg_8_4(word);
    let r = reg_9_3_0(word);
    match word >> 10 {
        1 => Op::Cpc { d, r },
        2 => Op::Sbc { d, r },
        _ => Op::Add { d, r },
    }
}

/// Words 0x1000 to 0x2FFF.
#[inline]
#[tactic(auto, using(crate::proofs::TwoRegisters::two_registers_rows))]
fn two_registers(word: u16, next: u16) -> Op
    requires low { 4 ≤ word / 1024 }
    requires high { word / 1024 ≤ 11 }
    ensures { result ≡ op_at word next }
{
    let d = reg_8_4(word);
    let r = reg_9_3_0(word);
    match word >> 10 {
        4 => Op::Cpse { d, r },
        5 => Op::Cp { d, r },
        6 => Op::Sub { d, r },
        7 => Op::Adc { d, r },
        8 => Op::And { d, r },
        9 => Op::Eor { d, r },
        10 => Op::Or { d, r },
        _ => Op::Mov { d, r },
    }
}

/// Words 0x8000 to 0x8FFF and 0xA000 to 0xAFFF: loads and stores with a displacement.
#[inline]
#[tactic(auto, using(crate::proofs::Displaced::displaced_rows))]
fn displaced(word: u16, next: u16) -> Op
    requires top { word / 16384 ≡ 2 }
    requires even { word / 4096 % 2 ≡ 0 }
    ensures { result ≡ op_at word next }
{
    let q = displacement(word);
    let register = reg_8_4(word);
    if word / 512 % 2 == 0 {
        if word / 8 % 2 == 0 {
            Op::LddZ { d: register, q }
        } else {
            Op::LddY { d: register, q }
        }
    } else if word / 8 % 2 == 0 {
        Op::StdZ { q, r: register }
    } else {
        Op::StdY { q, r: register }
    }
}

/// Words 0xB000 to 0xBFFF.
#[inline]
#[tactic(auto, using(crate::proofs::Displaced::displaced_rows))]
fn in_or_out(word: u16, next: u16) -> Op
    requires { word / 4096 ≡ 11 }
    ensures { result ≡ op_at word next }
{
    let a = address(word);
    if word >> 11 == 0x16 {
        Op::InIo {
            d: reg_8_4(word),
            a,
        }
    } else {
        Op::OutIo {
            a,
            r: reg_8_4(word),
        }
    }
}

/// Words 0x9000 to 0x9FFF.
#[inline]
#[tactic(auto, using(crate::proofs::Words::words_rows))]
fn page_9(word: u16, next: u16) -> Op
    requires { word / 4096 ≡ 9 }
    ensures { result ≡ op_at word next }
{
    match word >> 8 {
        0x90 => load(word, next),
        0x91 => load(word, next),
        0x92 => store(word, next),
        0x93 => store(word, next),
        0x94 => single(word, next),
        0x95 => single(word, next),
        0x96 => Op::Adiw {
            d: word_pair(word),
            k: short_constant(word),
        },
        0x97 => Op::Sbiw {
            d: word_pair(word),
            k: short_constant(word),
        },
        0x98 => Op::Cbi {
            a: low_address(word),
            b: low_three(word),
        },
        0x99 => Op::Sbic {
            a: low_address(word),
            b: low_three(word),
        },
        0x9A => Op::Sbi {
            a: low_address(word),
            b: low_three(word),
        },
        0x9B => Op::Sbis {
            a: low_address(word),
            b: low_three(word),
        },
        _ => Op::Mul {
            d: reg_8_4(word),
            r: reg_9_3_0(word),
        },
    }
}

/// A load or store that moves its pointer: undefined where its register is half of the pointer, which is the pair of
/// this number.
#[inline]
fn moving(word: u16, pair: u16, op: Op) -> Op
    ensures { result ≡ (if word / 32 % 16 == pair then Undefined word else op) }
{
    if word / 32 % 16 == pair {
        Op::Undefined { word }
    } else {
        op
    }
}

/// Words 0x9000 to 0x91FF.
#[inline]
#[tactic(auto, using(crate::proofs::Loads::loads_rows))]
fn load(word: u16, next: u16) -> Op
    requires { word / 512 ≡ 72 }
    ensures { result ≡ op_at word next }
{
    let d = reg_8_4(word);
    match word % 16 {
        0x0 => Op::Lds { d, k: next },
        0x1 => moving(word, Z_PAIR, Op::LdZInc { d }),
        0x2 => moving(word, Z_PAIR, Op::LdZDec { d }),
        0x4 => Op::LpmZ { d },
        0x5 => moving(word, Z_PAIR, Op::LpmZInc { d }),
        0x6 => Op::ElpmZ { d },
        0x7 => moving(word, Z_PAIR, Op::ElpmZInc { d }),
        0x9 => moving(word, Y_PAIR, Op::LdYInc { d }),
        0xA => moving(word, Y_PAIR, Op::LdYDec { d }),
        0xC => Op::LdX { d },
        0xD => moving(word, X_PAIR, Op::LdXInc { d }),
        0xE => moving(word, X_PAIR, Op::LdXDec { d }),
        0xF => Op::Pop { d },
        _ => Op::Reserved { word },
    }
}

/// Words 0x9200 to 0x93FF.
#[inline]
#[tactic(auto, using(crate::proofs::Stores::stores_rows))]
fn store(word: u16, next: u16) -> Op
    requires { word / 512 ≡ 73 }
    ensures { result ≡ op_at word next }
{
    let r = reg_8_4(word);
    match word % 16 {
        0x0 => Op::Sts { k: next, r },
        0x1 => moving(word, Z_PAIR, Op::StZInc { r }),
        0x2 => moving(word, Z_PAIR, Op::StZDec { r }),
        0x9 => moving(word, Y_PAIR, Op::StYInc { r }),
        0xA => moving(word, Y_PAIR, Op::StYDec { r }),
        0xC => Op::StX { r },
        0xD => moving(word, X_PAIR, Op::StXInc { r }),
        0xE => moving(word, X_PAIR, Op::StXDec { r }),
        0xF => Op::Push { r },
        _ => Op::Reserved { word },
    }
}

/// Words 0x9400 to 0x95FF.
#[inline]
#[tactic(auto, using(crate::proofs::Singles::singles_rows))]
fn single(word: u16, next: u16) -> Op
    requires { word / 512 ≡ 74 }
    ensures { result ≡ op_at word next }
{
    let d = reg_8_4(word);
    match word % 16 {
        0x0 => Op::Com { d },
        0x1 => Op::Neg { d },
        0x2 => Op::Swap { d },
        0x3 => Op::Inc { d },
        0x5 => Op::Asr { d },
        0x6 => Op::Lsr { d },
        0x7 => Op::Ror { d },
        0x8 => control(word, next),
        0x9 => indirect(word, next),
        0xA => Op::Dec { d },
        0xC => Op::Jmp { k: next },
        0xD => Op::Jmp { k: next },
        0xE => Op::Call { k: next },
        0xF => Op::Call { k: next },
        _ => Op::Reserved { word },
    }
}

/// Words 0x9408 to 0x95F8 in steps of 16.
#[inline]
#[tactic(auto, using(crate::proofs::Singles::singles_rows))]
fn control(word: u16, next: u16) -> Op
    requires top { word / 512 ≡ 74 }
    requires low { word % 16 ≡ 8 }
    ensures { result ≡ op_at word next }
{
    if word < 0x9480 {
        return Op::Bset { s: flag(word) };
    }
    if word < 0x9500 {
        return Op::Bclr { s: flag(word) };
    }
    match word {
        0x9508 => Op::Ret,
        0x9518 => Op::Reti,
        0x9588 => Op::Sleep,
        0x9598 => Op::Break,
        0x95A8 => Op::Wdr,
        0x95C8 => Op::LpmR0,
        0x95D8 => Op::ElpmR0,
        0x95E8 => Op::Spm,
        _ => Op::Reserved { word },
    }
}

/// Words 0x9409 to 0x95F9 in steps of 16.
#[inline]
#[tactic(auto, using(crate::proofs::Singles::singles_rows))]
fn indirect(word: u16, next: u16) -> Op
    requires top { word / 512 ≡ 74 }
    requires low { word % 16 ≡ 9 }
    ensures { result ≡ op_at word next }
{
    match word {
        0x9409 => Op::Ijmp,
        0x9509 => Op::Icall,
        _ => Op::Reserved { word },
    }
}

/// Words 0xF000 to 0xFFFF.
#[inline]
#[tactic(auto, using(crate::proofs::Branches::branches_rows))]
fn page_f(word: u16, next: u16) -> Op
    requires { word / 4096 ≡ 15 }
    ensures { result ≡ op_at word next }
{
    match word >> 10 {
        0x3C => Op::Brbs {
            s: low_three(word),
            k: branch_offset(word),
        },
        0x3D => Op::Brbc {
            s: low_three(word),
            k: branch_offset(word),
        },
        _ => register_bit(word, next),
    }
}

/// Words 0xF800 to 0xFFFF.
#[inline]
#[tactic(auto, using(crate::proofs::Branches::branches_rows))]
fn register_bit(word: u16, next: u16) -> Op
    requires { word / 2048 ≡ 31 }
    ensures { result ≡ op_at word next }
{
    if word / 8 % 2 == 1 {
        return Op::Reserved { word };
    }
    let register = reg_8_4(word);
    let b = low_three(word);
    match word >> 9 {
        0x7C => Op::Bld { d: register, b },
        0x7D => Op::Bst { d: register, b },
        0x7E => Op::Sbrc { r: register, b },
        _ => Op::Sbrs { r: register, b },
    }
}

/// The words that the instruction whose first word is `word` takes: 2 for JMP, CALL, LDS and STS, else 1.
#[inline]
#[tactic(auto, using(crate::proofs::Widths::widths))]
pub fn width(word: u16) -> u8
    ensures { result ≡ (if is_two_words word then 2 else 1) }
{
    let is_lds_or_sts = word / 1024 == 36 && word % 16 == 0;
    let is_jmp_or_call = word / 512 == 74 && word / 4 % 4 == 3;
    if is_lds_or_sts || is_jmp_or_call {
        2
    } else {
        1
    }
}

/// No word matches two rows of the opcode table. A law about the table alone: the body has nothing to do.
#[tactic(auto, using(crate::proofs::Apart::one_row))]
pub fn one_row_at_most(word: u16)
    ensures { length (rows_at word) ≤ 1 }
{}
