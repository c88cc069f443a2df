// The mnemonics, with the operands that they take and the words without these.
ghost use Rattle.std.specs.Prelude.{◌≡◌, ◌≤◌};
ghost use Rattle.asm_words.specs.Opcodes.{bare, one, two, has_word, is_known, width};

use crate::form::Field::{
    Branch, Data, Displaced, FlashPointer, Jump, Number, Place, Pointer, Register,
};
use crate::form::NumberField::{
    Address, Constant, Flag, LowAddress, LowThree, ShortConstant, Word,
};
use crate::form::RegisterField::{
    Both, Middle, PairLow, PairMiddle, ShortLow, ShortMiddle, Split, UpperLow, UpperMiddle,
    WordPair,
};
use crate::form::{Field, OneForm, TwoForm};
use crate::table::find;

/// Mnemonics without operands, and their words; SEI and CLI are BSET 7 and BCLR 7.
static BARE: [(&str, u16); 13] = [
    ("nop", 0x0000),
    ("ijmp", 0x9409),
    ("icall", 0x9509),
    ("ret", 0x9508),
    ("reti", 0x9518),
    ("sleep", 0x9588),
    ("break", 0x9598),
    ("wdr", 0x95A8),
    ("lpm", 0x95C8),
    ("elpm", 0x95D8),
    ("spm", 0x95E8),
    ("sei", 0x9478),
    ("cli", 0x94F8),
];

/// Mnemonics with one operand.
static ONE: [(&str, (Field, u16)); 25] = [
    ("com", (Register(Middle), 0x9400)),
    ("neg", (Register(Middle), 0x9401)),
    ("swap", (Register(Middle), 0x9402)),
    ("inc", (Register(Middle), 0x9403)),
    ("asr", (Register(Middle), 0x9405)),
    ("lsr", (Register(Middle), 0x9406)),
    ("ror", (Register(Middle), 0x9407)),
    ("dec", (Register(Middle), 0x940A)),
    ("pop", (Register(Middle), 0x900F)),
    ("push", (Register(Middle), 0x920F)),
    ("bset", (Number(Flag), 0x9408)),
    ("bclr", (Number(Flag), 0x9488)),
    ("jmp", (Place, 0x940C)),
    ("call", (Place, 0x940E)),
    ("rjmp", (Jump, 0xC000)),
    ("rcall", (Jump, 0xD000)),
    (".word", (Number(Word), 0x0000)),
    // aliases: branches with their flag, and instructions over one register twice
    ("brcs", (Branch, 0xF000)),
    ("brcc", (Branch, 0xF400)),
    ("breq", (Branch, 0xF001)),
    ("brne", (Branch, 0xF401)),
    ("clr", (Register(Both), 0x2400)),
    ("tst", (Register(Both), 0x2000)),
    ("lsl", (Register(Both), 0x0C00)),
    ("rol", (Register(Both), 0x1C00)),
];

/// Mnemonics with two operands.
static TWO: [(&str, (Field, Field, u16)); 46] = [
    // two registers of any kind
    ("cpc", (Register(Middle), Register(Split), 0x0400)),
    ("sbc", (Register(Middle), Register(Split), 0x0800)),
    ("add", (Register(Middle), Register(Split), 0x0C00)),
    ("cpse", (Register(Middle), Register(Split), 0x1000)),
    ("cp", (Register(Middle), Register(Split), 0x1400)),
    ("sub", (Register(Middle), Register(Split), 0x1800)),
    ("adc", (Register(Middle), Register(Split), 0x1C00)),
    ("and", (Register(Middle), Register(Split), 0x2000)),
    ("eor", (Register(Middle), Register(Split), 0x2400)),
    ("or", (Register(Middle), Register(Split), 0x2800)),
    ("mov", (Register(Middle), Register(Split), 0x2C00)),
    ("mul", (Register(Middle), Register(Split), 0x9C00)),
    // two registers of some kind, in four letters
    ("movw", (Register(PairMiddle), Register(PairLow), 0x0100)),
    ("muls", (Register(UpperMiddle), Register(UpperLow), 0x0200)),
    ("fmul", (Register(ShortMiddle), Register(ShortLow), 0x0308)),
    // two registers of some kind, in more letters
    (
        "fmulsu",
        (Register(ShortMiddle), Register(ShortLow), 0x0388),
    ),
    ("mulsu", (Register(ShortMiddle), Register(ShortLow), 0x0300)),
    ("fmuls", (Register(ShortMiddle), Register(ShortLow), 0x0380)),
    // a register and a constant
    ("cpi", (Register(UpperMiddle), Number(Constant), 0x3000)),
    ("sbci", (Register(UpperMiddle), Number(Constant), 0x4000)),
    ("subi", (Register(UpperMiddle), Number(Constant), 0x5000)),
    ("ori", (Register(UpperMiddle), Number(Constant), 0x6000)),
    ("andi", (Register(UpperMiddle), Number(Constant), 0x7000)),
    ("ldi", (Register(UpperMiddle), Number(Constant), 0xE000)),
    ("adiw", (Register(WordPair), Number(ShortConstant), 0x9600)),
    ("sbiw", (Register(WordPair), Number(ShortConstant), 0x9700)),
    // loads, stores and I/O
    ("ldd", (Register(Middle), Displaced, 0x8000)),
    ("std", (Displaced, Register(Middle), 0x8200)),
    ("ld", (Register(Middle), Pointer, 0x8000)),
    ("st", (Pointer, Register(Middle), 0x8200)),
    ("lds", (Register(Middle), Data, 0x9000)),
    ("sts", (Data, Register(Middle), 0x9200)),
    ("lpm", (Register(Middle), FlashPointer, 0x9004)),
    ("elpm", (Register(Middle), FlashPointer, 0x9006)),
    ("in", (Register(Middle), Number(Address), 0xB000)),
    ("out", (Number(Address), Register(Middle), 0xB800)),
    // a bit or a flag
    ("cbi", (Number(LowAddress), Number(LowThree), 0x9800)),
    ("sbic", (Number(LowAddress), Number(LowThree), 0x9900)),
    ("sbi", (Number(LowAddress), Number(LowThree), 0x9A00)),
    ("sbis", (Number(LowAddress), Number(LowThree), 0x9B00)),
    ("bld", (Register(Middle), Number(LowThree), 0xF800)),
    ("bst", (Register(Middle), Number(LowThree), 0xFA00)),
    ("sbrc", (Register(Middle), Number(LowThree), 0xFC00)),
    ("sbrs", (Register(Middle), Number(LowThree), 0xFE00)),
    ("brbs", (Number(LowThree), Branch, 0xF000)),
    ("brbc", (Number(LowThree), Branch, 0xF400)),
];

/// The word of a mnemonic without operands.
pub fn bare(mnemonic: &[u8]) -> Option<u16>
    ensures { result ≡ bare mnemonic.now }
{
    find(&BARE, mnemonic)
}

/// What a mnemonic takes as its one operand.
pub fn one(mnemonic: &[u8]) -> Option<OneForm>
    ensures { result ≡ one mnemonic.now }
{
    match find(&ONE, mnemonic) {
        Some((field, opcode)) => Some(OneForm { field, opcode }),
        None => None,
    }
}

/// What a mnemonic takes as its two operands.
pub fn two(mnemonic: &[u8]) -> Option<TwoForm>
    ensures { result ≡ two mnemonic.now }
{
    match find(&TWO, mnemonic) {
        Some((first, second, opcode)) => Some(TwoForm {
            first,
            second,
            opcode,
        }),
        None => None,
    }
}

/// Whether a text is a mnemonic, an alias or `.word`.
pub fn is_known(mnemonic: &[u8]) -> bool
    ensures { result ≡ is_known mnemonic.now }
{
    bare(mnemonic).is_some() || one(mnemonic).is_some() || two(mnemonic).is_some()
}

// Whether an operand stands in a second word.
fn has_word(field: Field) -> bool
    ensures { result ≡ has_word field }
{
    match field {
        Field::Data => true,
        Field::Place => true,
        _ => false,
    }
}

/// The words that an instruction of this mnemonic takes: 2 for JMP, CALL, LDS and STS, whose operand stands in a second
/// word, else 1.
pub fn width(mnemonic: &[u8]) -> u32
    ensures value { result ≡ width mnemonic.now }
    ensures some { 1 ≤ result }
    ensures small { result ≤ 2 }
{
    match one(mnemonic) {
        Some(form) if has_word(form.field) => 2,
        _ => match two(mnemonic) {
            Some(form) if has_word(form.first) || has_word(form.second) => 2,
            _ => 1,
        },
    }
}
