// The class of an instruction.
ghost use Rattle.std.specs.Prelude.{◌≡◌};
ghost use Rattle.avr_decoder.specs.Class.{class_of};

use crate::{Class, Op};
use avr_base::StopCause;

impl Op {
    /// Its class: which part of the processor executes it. By reference, so that the dispatch loop can pass the
    /// instruction on by value.
    #[inline]
    pub fn class(&self) -> Class
        ensures { result ≡ class_of self.now }
    {
        match self {
            Op::Nop => Class::Arith,
            Op::Movw { .. } => Class::Arith,
            Op::Muls { .. } => Class::Arith,
            Op::Mulsu { .. } => Class::Arith,
            Op::Fmul { .. } => Class::Arith,
            Op::Fmuls { .. } => Class::Arith,
            Op::Fmulsu { .. } => Class::Arith,
            Op::Cpc { .. } => Class::Arith,
            Op::Sbc { .. } => Class::Arith,
            Op::Add { .. } => Class::Arith,
            Op::Cpse { .. } => Class::Flow,
            Op::Cp { .. } => Class::Arith,
            Op::Sub { .. } => Class::Arith,
            Op::Adc { .. } => Class::Arith,
            Op::And { .. } => Class::Arith,
            Op::Eor { .. } => Class::Arith,
            Op::Or { .. } => Class::Arith,
            Op::Mov { .. } => Class::Arith,
            Op::Cpi { .. } => Class::Arith,
            Op::Sbci { .. } => Class::Arith,
            Op::Subi { .. } => Class::Arith,
            Op::Ori { .. } => Class::Arith,
            Op::Andi { .. } => Class::Arith,
            Op::LddZ { .. } => Class::Memory,
            Op::LddY { .. } => Class::Memory,
            Op::StdZ { .. } => Class::Memory,
            Op::StdY { .. } => Class::Memory,
            Op::Lds { .. } => Class::Memory,
            Op::LdZInc { .. } => Class::Memory,
            Op::LdZDec { .. } => Class::Memory,
            Op::LpmZ { .. } => Class::Memory,
            Op::LpmZInc { .. } => Class::Memory,
            Op::ElpmZ { .. } => Class::Memory,
            Op::ElpmZInc { .. } => Class::Memory,
            Op::LdYInc { .. } => Class::Memory,
            Op::LdYDec { .. } => Class::Memory,
            Op::LdX { .. } => Class::Memory,
            Op::LdXInc { .. } => Class::Memory,
            Op::LdXDec { .. } => Class::Memory,
            Op::Pop { .. } => Class::Memory,
            Op::Sts { .. } => Class::Memory,
            Op::StZInc { .. } => Class::Memory,
            Op::StZDec { .. } => Class::Memory,
            Op::StYInc { .. } => Class::Memory,
            Op::StYDec { .. } => Class::Memory,
            Op::StX { .. } => Class::Memory,
            Op::StXInc { .. } => Class::Memory,
            Op::StXDec { .. } => Class::Memory,
            Op::Push { .. } => Class::Memory,
            Op::Com { .. } => Class::Arith,
            Op::Neg { .. } => Class::Arith,
            Op::Swap { .. } => Class::Arith,
            Op::Inc { .. } => Class::Arith,
            Op::Asr { .. } => Class::Arith,
            Op::Lsr { .. } => Class::Arith,
            Op::Ror { .. } => Class::Arith,
            Op::Dec { .. } => Class::Arith,
            Op::Bset { .. } => Class::Arith,
            Op::Bclr { .. } => Class::Arith,
            Op::Ijmp => Class::Flow,
            Op::Icall => Class::Flow,
            Op::Ret => Class::Flow,
            Op::Reti => Class::Flow,
            Op::Sleep => Class::Flow,
            Op::Break => Class::Halting(StopCause::BreakOp),
            Op::Wdr => Class::Arith,
            Op::LpmR0 => Class::Memory,
            Op::ElpmR0 => Class::Memory,
            Op::Spm => Class::Halting(StopCause::Spm),
            Op::Jmp { .. } => Class::Flow,
            Op::Call { .. } => Class::Flow,
            Op::Adiw { .. } => Class::Arith,
            Op::Sbiw { .. } => Class::Arith,
            Op::Cbi { .. } => Class::Memory,
            Op::Sbic { .. } => Class::Flow,
            Op::Sbi { .. } => Class::Memory,
            Op::Sbis { .. } => Class::Flow,
            Op::Mul { .. } => Class::Arith,
            Op::InIo { .. } => Class::Memory,
            Op::OutIo { .. } => Class::Memory,
            Op::Rjmp { .. } => Class::Flow,
            Op::Rcall { .. } => Class::Flow,
            Op::Ldi { .. } => Class::Arith,
            Op::Brbs { .. } => Class::Flow,
            Op::Brbc { .. } => Class::Flow,
            Op::Bld { .. } => Class::Arith,
            Op::Bst { .. } => Class::Arith,
            Op::Sbrc { .. } => Class::Flow,
            Op::Sbrs { .. } => Class::Flow,
            Op::Reserved { .. } => Class::Halting(StopCause::ReservedOpcode),
            Op::Undefined { .. } => Class::Halting(StopCause::UndefinedOperands),
        }
    }
}

/// The class of an instruction.
#[inline]
pub fn class(op: Op) -> Class
    ensures { result ≡ class_of op }
{
    op.class()
}
