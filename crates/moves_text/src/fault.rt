// Why a text is no moves of a sweep.
ghost use Rattle.std.specs.Prelude.{◌≡◌, ◌≤◌, length};
ghost use Rattle.moves_text.specs.Fault.{at_line, fault_line, fault_name};
ghost use Rattle.moves_text.specs.declared.fault.MovesFault.TheVariants.{NoMemory};

use std::alloc::{AllocError, AllocFailed};

/// What can be wrong with a line.
#[derive(Clone, Copy, Debug)]
pub enum LineFault {
    /// It has not the form of a line: a node and at least one stretch, of three words each, with one space between
    /// words, and LF at its end.
    BadLine,
    /// The network has no node of this number.
    NoNode,
    /// A cycle is above 2^40, or a distance is not 1 to 65,535 cycles.
    OutOfRange,
    /// A stretch does not begin behind the last byte of the one before.
    Unordered,
    /// It has more than 65,536 bytes.
    TooLong,
}

/// Why a text is no moves of a sweep. The first faulty line decides. In a line the node comes first, then each stretch in
/// turn: that it has three words, then each of them, then where it begins, then how many bytes the line has.
#[derive(Clone, Copy, Debug)]
pub enum MovesFault {
    /// A line is faulty.
    AtLine {
        /// The line, from 1.
        line: usize,
        /// What is wrong with it.
        fault: LineFault,
    },
    /// There is no line.
    Empty,
    /// An allocation was refused.
    NoMemory,
}

impl From<AllocError> for MovesFault {
    ghost from_gives = { λ _ fault. fault ≡ NoMemory };

    fn from(_error: AllocError) -> Self {
        MovesFault::NoMemory
    }
}

impl<T: Drop> From<AllocFailed<T>> for MovesFault {
    ghost from_gives = { λ _ fault. fault ≡ NoMemory };

    fn from(_error: AllocFailed<T>) -> Self {
        MovesFault::NoMemory
    }
}

impl MovesFault {
    /// The name of the fault, as `NoNode`: at most 15 bytes.
    pub fn name(&self) -> &'static str
        ensures name { result.now ≡ fault_name self.now }
        ensures short { length result.now ≤ 15 }
    {
        match self {
            MovesFault::AtLine { fault, .. } => match fault {
                LineFault::BadLine => "BadLine",
                LineFault::NoNode => "NoNode",
                LineFault::OutOfRange => "OutOfRange",
                LineFault::Unordered => "Unordered",
                LineFault::TooLong => "TooLong",
            },
            MovesFault::Empty => "Empty",
            MovesFault::NoMemory => "NoMemory",
        }
    }

    /// The faulty line, from 1. `None` for `Empty` and `NoMemory`, which have none.
    pub fn line(&self) -> Option<usize>
        ensures { result ≡ fault_line self.now }
    {
        match self {
            MovesFault::AtLine { line, .. } => Some(*line),
            MovesFault::Empty => None,
            MovesFault::NoMemory => None,
        }
    }
}

impl LineFault {
    /// The fault of a text that has this one on a line, from 1.
    pub(super) fn at(self, line: usize) -> MovesFault
        ensures { result ≡ at_line self line }
    {
        MovesFault::AtLine { line, fault: self }
    }
}
