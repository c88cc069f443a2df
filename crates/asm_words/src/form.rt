// The operands that a mnemonic takes.

/// Where a register's number stands in a word, and which registers may stand there.
#[derive(Clone, Copy)]
pub enum RegisterField {
    /// Bits 8 to 4: any register.
    Middle,
    /// Bit 9 and bits 3 to 0: any register.
    Split,
    /// Both of these.
    Both,
    /// Bits 7 to 4: r16 to r31.
    UpperMiddle,
    /// Bits 3 to 0: r16 to r31.
    UpperLow,
    /// Bits 6 to 4: r16 to r23.
    ShortMiddle,
    /// Bits 2 to 0: r16 to r23.
    ShortLow,
    /// Bits 7 to 4: the lower register of a pair.
    PairMiddle,
    /// Bits 3 to 0: the lower register of a pair.
    PairLow,
    /// Bits 5 and 4: r24, r26, r28 or r30.
    WordPair,
}

/// Where a number stands in a word, and which numbers may stand there.
#[derive(Clone, Copy)]
pub enum NumberField {
    /// Bits 11 to 8 and 3 to 0: 0 to 255.
    Constant,
    /// Bits 7, 6 and 3 to 0: 0 to 63.
    ShortConstant,
    /// Bits 10, 9 and 3 to 0: an I/O address, 0 to 63.
    Address,
    /// Bits 7 to 3: an I/O address, 0 to 31.
    LowAddress,
    /// Bits 2 to 0: a bit or a flag, 0 to 7.
    LowThree,
    /// Bits 6 to 4: a flag, 0 to 7.
    Flag,
    /// The whole word.
    Word,
}

/// What an operand may be.
#[derive(Clone, Copy)]
pub enum Field {
    Register(RegisterField),
    Number(NumberField),
    /// X, Y or Z, with + or - where it moves.
    Pointer,
    /// Z or Z+, of program memory.
    FlashPointer,
    /// Y or Z and a displacement, 0 to 63.
    Displaced,
    /// A data address, in the second word.
    Data,
    /// A word address or a label, in the second word.
    Place,
    /// A distance or a label, up to 2,048 words away: bits 11 to 0.
    Jump,
    /// A distance or a label, up to 64 words away: bits 9 to 3.
    Branch,
}

/// A mnemonic with one operand: what it may be, and the word without it.
#[derive(Clone, Copy)]
pub struct OneForm {
    pub field: Field,
    pub opcode: u16,
}

/// A mnemonic with two operands.
#[derive(Clone, Copy)]
pub struct TwoForm {
    pub first: Field,
    pub second: Field,
    pub opcode: u16,
}
