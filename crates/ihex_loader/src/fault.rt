// What can be wrong with an image, of one line by itself and of a whole file.
ghost use Rattle.std.specs.Prelude.{◌≡◌, ◌≤◌, length};
ghost use Rattle.ihex_loader.specs.Fault.{fault_name, fault_line};
ghost use Rattle.ihex_loader.specs.declared.fault.HexFault.TheVariants.{NoMemory};

use std::alloc::AllocError;
use std::fmt;
use thiserror::Error;

/// What can be wrong with a line.
#[derive(Clone, Copy, Debug)]
pub enum LineFault {
    /// No leading colon, an odd number of digits, another character, or fewer than five pairs of digits.
    NotARecord,
    /// The bytes of the record do not add up to 0 modulo 256.
    BadSum,
    /// A record type above 05.
    BadType,
    /// The count is not the number of data bytes, or not the one that the record type has.
    BadLength,
    /// A data record that goes past the last offset, 0xFFFF.
    Crossing,
    /// A data record that goes past the last byte address of the flash, 0x1FFFF.
    PastFlash,
    /// A line that is not blank, after the end record.
    AfterEnd,
}

impl fmt::Display for LineFault {
    fn fmt<W: fmt::Write>(&self, f: &mut fmt::Formatter<W>) -> Result<(), fmt::Error> {
        f.write_str(match self {
            LineFault::NotARecord => "not a record",
            LineFault::BadSum => "wrong check byte",
            LineFault::BadType => "unknown record type",
            LineFault::BadLength => "wrong count of bytes",
            LineFault::Crossing => "the data crosses the end of its segment",
            LineFault::PastFlash => "the data goes past the flash",
            LineFault::AfterEnd => "text after the end record",
        })
    }
}

/// Why an image was refused. The first faulty line decides.
#[derive(Clone, Copy, Debug, Error)]
pub enum HexFault {
    /// A line is faulty.
    #[error("line {line}: {fault}")]
    AtLine {
        /// The line, from 1.
        line: usize,
        /// What is wrong with it.
        fault: LineFault,
    },
    /// No line is faulty, and none is an end record.
    #[error("no end record")]
    NoEnd,
    /// An allocation was refused.
    #[error("out of memory")]
    NoMemory,
}

impl From<AllocError> for HexFault {
    ghost from_gives = { λ _ fault. fault ≡ NoMemory };

    fn from(_error: AllocError) -> Self {
        HexFault::NoMemory
    }
}

impl HexFault {
    /// The name of the fault, as `BadSum`: at most 10 bytes.
    pub fn name(&self) -> &'static str
        ensures name { result.now ≡ fault_name self.now }
        ensures short { length result.now ≤ 10 }
    {
        match self {
            HexFault::AtLine { fault, .. } => match fault {
                LineFault::NotARecord => "NotARecord",
                LineFault::BadSum => "BadSum",
                LineFault::BadType => "BadType",
                LineFault::BadLength => "BadLength",
                LineFault::Crossing => "Crossing",
                LineFault::PastFlash => "PastFlash",
                LineFault::AfterEnd => "AfterEnd",
            },
            HexFault::NoEnd => "NoEnd",
            HexFault::NoMemory => "NoMemory",
        }
    }

    /// The faulty line, from 1. `None` for `NoEnd` and `NoMemory`, which have none.
    pub fn line(&self) -> Option<usize>
        ensures { result ≡ fault_line self.now }
    {
        match self {
            HexFault::AtLine { line, .. } => Some(*line),
            HexFault::NoEnd | HexFault::NoMemory => None,
        }
    }
}
