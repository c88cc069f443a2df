// What can be wrong with a source, in one line by itself and in the whole.
ghost use Rattle.std.specs.Prelude.{◌≡◌, ◌≤◌, length};
ghost use Rattle.asm_text.specs.Fault.{at_line, fault_line, fault_name};
ghost use Rattle.asm_text.specs.declared.fault.AsmFault.TheVariants.{NoMemory};

use std::alloc::AllocError;
use std::fmt;
use thiserror::Error;

/// What can be wrong with a line.
#[derive(Clone, Copy, Debug)]
pub enum LineFault {
    /// A byte other than a tab, a space and the visible ASCII characters, or a `:` in a line that is no `LABEL:`.
    NotALine,
    /// The mnemonic is none.
    UnknownMnemonic,
    /// The operands have no form of the mnemonic, a register or a number cannot stand there, or the manual leaves the
    /// result undefined.
    BadOperand,
    /// The address that the line names is not its own.
    BadAddress,
    /// An earlier line has the label.
    TwiceLabelled,
    /// No line has the label that is used.
    NoLabel,
    /// The last word of the line would stand past word address 0xFFFF.
    PastFlash,
    /// A relative target at an odd number of bytes or too far away, or a `jmp` or `call` to a label at word 65,536.
    OutOfReach,
}

impl fmt::Display for LineFault {
    fn fmt<W: fmt::Write>(&self, f: &mut fmt::Formatter<W>) -> Result<(), fmt::Error> {
        f.write_str(match self {
            LineFault::NotALine => "not a line",
            LineFault::UnknownMnemonic => "unknown mnemonic",
            LineFault::BadOperand => "operands that the mnemonic does not have",
            LineFault::BadAddress => "not the address of this line",
            LineFault::TwiceLabelled => "a label that an earlier line has",
            LineFault::NoLabel => "no line has the label",
            LineFault::PastFlash => "past the end of the flash",
            LineFault::OutOfReach => "target out of reach",
        })
    }
}

/// Why a source was refused. The first line with a fault other than `OutOfReach` decides, and on it the first fault in
/// the order of `LineFault`; where there is none, the first line with `OutOfReach`.
#[derive(Clone, Copy, Debug, Error)]
pub enum AsmFault {
    /// A line is faulty.
    #[error("line {line}: {fault}")]
    AtLine {
        /// The line, from 1.
        line: usize,
        /// What is wrong with it.
        fault: LineFault,
    },
    /// An allocation was refused.
    #[error("out of memory")]
    NoMemory,
}

impl From<AllocError> for AsmFault {
    ghost from_gives = { λ _ fault. fault ≡ NoMemory };

    fn from(_error: AllocError) -> Self {
        AsmFault::NoMemory
    }
}

impl AsmFault {
    /// The name of the fault, as `BadOperand`: at most 15 bytes.
    pub fn name(&self) -> &'static str
        ensures name { result.now ≡ fault_name self.now }
        ensures short { length result.now ≤ 15 }
    {
        match self {
            AsmFault::AtLine { fault, .. } => match fault {
                LineFault::NotALine => "NotALine",
                LineFault::UnknownMnemonic => "UnknownMnemonic",
                LineFault::BadOperand => "BadOperand",
                LineFault::BadAddress => "BadAddress",
                LineFault::TwiceLabelled => "TwiceLabelled",
                LineFault::NoLabel => "NoLabel",
                LineFault::PastFlash => "PastFlash",
                LineFault::OutOfReach => "OutOfReach",
            },
            AsmFault::NoMemory => "NoMemory",
        }
    }

    /// The faulty line, from 1. `None` for `NoMemory`, which has none.
    pub fn line(&self) -> Option<usize>
        ensures { result ≡ fault_line self.now }
    {
        match self {
            AsmFault::AtLine { line, .. } => Some(*line),
            AsmFault::NoMemory => None,
        }
    }
}

impl LineFault {
    /// The fault of a source that has this one on a line, from 1.
    pub(super) fn at(self, line: usize) -> AsmFault
        ensures { result ≡ at_line self line }
    {
        AsmFault::AtLine { line, fault: self }
    }
}
