// What is printed of an instruction: its mnemonic and its operands. (Two tables, since a row that makes both costs the
// proof four times as much.)
ghost use Rattle.std.specs.Prelude.{◌≡◌};
ghost use Rattle.avr_disassembler.specs.Text.{shown};

use avr_base::Reg;
use avr_decoder::Op;

/// A pointer register, and how a load or store moves it.
#[derive(Clone, Copy)]
pub enum Pointer {
    X,
    XInc,
    XDec,
    YInc,
    YDec,
    Z,
    ZInc,
    ZDec,
}

/// One operand, in the form in which it is printed.
#[derive(Clone, Copy)]
pub enum Operand {
    /// `r0` to `r31`.
    Register(Reg),
    /// A constant or an I/O address: `0x` and two digits.
    Byte(u8),
    /// An address of 16 bits: `0x` and four digits.
    Address(u16),
    /// A bit or a flag, in decimal.
    Number(u8),
    /// An offset in words, as a distance in bytes: `.+4`, `.-2`.
    Offset(i16),
    /// `X`, `X+`, `-X`, ..
    At(Pointer),
    /// `Y+` and a displacement.
    PastY(u8),
    /// `Z+` and a displacement.
    PastZ(u8),
}

/// The operands of an instruction.
#[derive(Clone, Copy)]
pub enum Operands {
    Zero,
    One(Operand),
    Two(Operand, Operand),
}

/// The mnemonic of an instruction, of at most six letters.
#[tactic(auto, unfolding(crate::specs::Text::shown))]
pub fn mnemonic_of(op: &Op) -> &'static str
    ensures { result.now ≡ (shown op.now).mnemonic }
{
    match op {
        Op::Nop => "nop",
        Op::Movw { .. } => "movw",
        Op::Muls { .. } => "muls",
        Op::Mulsu { .. } => "mulsu",
        Op::Fmul { .. } => "fmul",
        Op::Fmuls { .. } => "fmuls",
        Op::Fmulsu { .. } => "fmulsu",
        Op::Cpc { .. } => "cpc",
        Op::Sbc { .. } => "sbc",
        Op::Add { .. } => "add",
        Op::Cpse { .. } => "cpse",
        Op::Cp { .. } => "cp",
        Op::Sub { .. } => "sub",
        Op::Adc { .. } => "adc",
        Op::And { .. } => "and",
        Op::Eor { .. } => "eor",
        Op::Or { .. } => "or",
        Op::Mov { .. } => "mov",
        Op::Cpi { .. } => "cpi",
        Op::Sbci { .. } => "sbci",
        Op::Subi { .. } => "subi",
        Op::Ori { .. } => "ori",
        Op::Andi { .. } => "andi",
        Op::LddZ { .. } | Op::LddY { .. } => "ldd",
        Op::StdZ { .. } | Op::StdY { .. } => "std",
        Op::Lds { .. } => "lds",
        Op::LdZInc { .. }
        | Op::LdZDec { .. }
        | Op::LdYInc { .. }
        | Op::LdYDec { .. }
        | Op::LdX { .. }
        | Op::LdXInc { .. }
        | Op::LdXDec { .. } => "ld",
        Op::LpmZ { .. } | Op::LpmZInc { .. } | Op::LpmR0 => "lpm",
        Op::ElpmZ { .. } | Op::ElpmZInc { .. } | Op::ElpmR0 => "elpm",
        Op::Pop { .. } => "pop",
        Op::Sts { .. } => "sts",
        Op::StZInc { .. }
        | Op::StZDec { .. }
        | Op::StYInc { .. }
        | Op::StYDec { .. }
        | Op::StX { .. }
        | Op::StXInc { .. }
        | Op::StXDec { .. } => "st",
        Op::Push { .. } => "push",
        Op::Com { .. } => "com",
        Op::Neg { .. } => "neg",
        Op::Swap { .. } => "swap",
        Op::Inc { .. } => "inc",
        Op::Asr { .. } => "asr",
        Op::Lsr { .. } => "lsr",
        Op::Ror { .. } => "ror",
        Op::Dec { .. } => "dec",
        Op::Bset { .. } => "bset",
        Op::Bclr { .. } => "bclr",
        Op::Ijmp => "ijmp",
        Op::Icall => "icall",
        Op::Ret => "ret",
        Op::Reti => "reti",
        Op::Sleep => "sleep",
        Op::Break => "break",
        Op::Wdr => "wdr",
        Op::Spm => "spm",
        Op::Jmp { .. } => "jmp",
        Op::Call { .. } => "call",
        Op::Adiw { .. } => "adiw",
        Op::Sbiw { .. } => "sbiw",
        Op::Cbi { .. } => "cbi",
        Op::Sbic { .. } => "sbic",
        Op::Sbi { .. } => "sbi",
        Op::Sbis { .. } => "sbis",
        Op::Mul { .. } => "mul",
        Op::InIo { .. } => "in",
        Op::OutIo { .. } => "out",
        Op::Rjmp { .. } => "rjmp",
        Op::Rcall { .. } => "rcall",
        Op::Ldi { .. } => "ldi",
        Op::Brbs { .. } => "brbs",
        Op::Brbc { .. } => "brbc",
        Op::Bld { .. } => "bld",
        Op::Bst { .. } => "bst",
        Op::Sbrc { .. } => "sbrc",
        Op::Sbrs { .. } => "sbrs",
        Op::Reserved { .. } | Op::Undefined { .. } => ".word",
    }
}

/// The operands of an instruction.
#[tactic(auto, unfolding(crate::specs::Text::shown))]
pub fn operands_of(op: Op) -> Operands
    ensures { result ≡ (shown op).operands }
{
    use Operand::{Address, At, Byte, Number, Offset, PastY, PastZ, Register};
    use Operands::{One, Two, Zero};
    match op {
        Op::Movw { d, r }
        | Op::Muls { d, r }
        | Op::Mulsu { d, r }
        | Op::Fmul { d, r }
        | Op::Fmuls { d, r }
        | Op::Fmulsu { d, r }
        | Op::Cpc { d, r }
        | Op::Sbc { d, r }
        | Op::Add { d, r }
        | Op::Cpse { d, r }
        | Op::Cp { d, r }
        | Op::Sub { d, r }
        | Op::Adc { d, r }
        | Op::And { d, r }
        | Op::Eor { d, r }
        | Op::Or { d, r }
        | Op::Mov { d, r }
        | Op::Mul { d, r } => Two(Register(d), Register(r)),
        Op::Cpi { d, k }
        | Op::Sbci { d, k }
        | Op::Subi { d, k }
        | Op::Ori { d, k }
        | Op::Andi { d, k }
        | Op::Adiw { d, k }
        | Op::Sbiw { d, k }
        | Op::Ldi { d, k }
        | Op::InIo { d, a: k } => Two(Register(d), Byte(k)),
        Op::OutIo { a, r } => Two(Byte(a), Register(r)),
        Op::LddZ { d, q } => Two(Register(d), PastZ(q)),
        Op::LddY { d, q } => Two(Register(d), PastY(q)),
        Op::StdZ { q, r } => Two(PastZ(q), Register(r)),
        Op::StdY { q, r } => Two(PastY(q), Register(r)),
        Op::Lds { d, k } => Two(Register(d), Address(k)),
        Op::Sts { k, r } => Two(Address(k), Register(r)),
        Op::LdX { d } => Two(Register(d), At(Pointer::X)),
        Op::LdXInc { d } => Two(Register(d), At(Pointer::XInc)),
        Op::LdXDec { d } => Two(Register(d), At(Pointer::XDec)),
        Op::LdYInc { d } => Two(Register(d), At(Pointer::YInc)),
        Op::LdYDec { d } => Two(Register(d), At(Pointer::YDec)),
        Op::LpmZ { d } | Op::ElpmZ { d } => Two(Register(d), At(Pointer::Z)),
        Op::LdZInc { d } | Op::LpmZInc { d } | Op::ElpmZInc { d } => Two(
            Register(d),
            At(Pointer::ZInc),
        ),
        Op::LdZDec { d } => Two(Register(d), At(Pointer::ZDec)),
        Op::StX { r } => Two(At(Pointer::X), Register(r)),
        Op::StXInc { r } => Two(At(Pointer::XInc), Register(r)),
        Op::StXDec { r } => Two(At(Pointer::XDec), Register(r)),
        Op::StYInc { r } => Two(At(Pointer::YInc), Register(r)),
        Op::StYDec { r } => Two(At(Pointer::YDec), Register(r)),
        Op::StZInc { r } => Two(At(Pointer::ZInc), Register(r)),
        Op::StZDec { r } => Two(At(Pointer::ZDec), Register(r)),
        Op::Pop { d: r }
        | Op::Push { r }
        | Op::Com { d: r }
        | Op::Neg { d: r }
        | Op::Swap { d: r }
        | Op::Inc { d: r }
        | Op::Asr { d: r }
        | Op::Lsr { d: r }
        | Op::Ror { d: r }
        | Op::Dec { d: r } => One(Register(r)),
        Op::Cbi { a, b } | Op::Sbic { a, b } | Op::Sbi { a, b } | Op::Sbis { a, b } => {
            Two(Byte(a), Number(b))
        }
        Op::Bld { d: r, b } | Op::Bst { d: r, b } | Op::Sbrc { r, b } | Op::Sbrs { r, b } => {
            Two(Register(r), Number(b))
        }
        Op::Bset { s } | Op::Bclr { s } => One(Number(s)),
        Op::Jmp { k } | Op::Call { k } | Op::Reserved { word: k } | Op::Undefined { word: k } =>
            One(Address(k)),
        Op::Rjmp { k } => One(Offset(k)),
        Op::Rcall { k } => One(Offset(k)),
        Op::Brbs { s, k } => Two(Number(s), Offset(k)),
        Op::Brbc { s, k } => Two(Number(s), Offset(k)),
        Op::Nop
        | Op::Ijmp
        | Op::Icall
        | Op::Ret
        | Op::Reti
        | Op::Sleep
        | Op::Break
        | Op::Wdr
        | Op::LpmR0
        | Op::ElpmR0
        | Op::Spm => Zero,
    }
}
