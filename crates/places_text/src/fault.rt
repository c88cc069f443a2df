// Why a text says no places.
ghost use Rattle.std.specs.Prelude.{◌≡◌, ◌≤◌, length};
ghost use Rattle.places_text.specs.Fault.{at_line, fault_line, fault_name};
ghost use Rattle.places_text.specs.declared.fault.PlacesFault.TheVariants.{NoMemory};

use std::alloc::{AllocError, AllocFailed};

/// What can be wrong with a line.
#[derive(Clone, Copy, Debug)]
pub enum LineFault {
    /// It has not the form of a line: a node, `byte` or `at`, and four hexadecimal digits, with one space between words,
    /// and LF at its end.
    BadLine,
    /// The network has no node of this number.
    NoNode,
    /// At this data address stands no byte that can be watched.
    NoPlace,
    /// It does not stand behind the line before in the order of places.
    Unordered,
    /// It stands behind the last line that a text may have.
    TooMany,
}

/// Why a text says no places. The first faulty line decides. In a line its number comes first, then its form, then the
/// node, the address, and the order.
#[derive(Clone, Copy, Debug)]
pub enum PlacesFault {
    /// A line is faulty.
    AtLine {
        /// The line, from 1.
        line: usize,
        /// What is wrong with it.
        fault: LineFault,
    },
    /// There is no line.
    Empty,
    /// An allocation was refused.
    NoMemory,
}

impl From<AllocError> for PlacesFault {
    ghost from_gives = { λ _ fault. fault ≡ NoMemory };

    fn from(_error: AllocError) -> Self {
        PlacesFault::NoMemory
    }
}

impl<T: Drop> From<AllocFailed<T>> for PlacesFault {
    ghost from_gives = { λ _ fault. fault ≡ NoMemory };

    fn from(_error: AllocFailed<T>) -> Self {
        PlacesFault::NoMemory
    }
}

impl PlacesFault {
    /// The name of the fault, as `NoNode`: at most 15 bytes.
    pub fn name(&self) -> &'static str
        ensures name { result.now ≡ fault_name self.now }
        ensures short { length result.now ≤ 15 }
    {
        match self {
            PlacesFault::AtLine { fault, .. } => match fault {
                LineFault::BadLine => "BadLine",
                LineFault::NoNode => "NoNode",
                LineFault::NoPlace => "NoPlace",
                LineFault::Unordered => "Unordered",
                LineFault::TooMany => "TooMany",
            },
            PlacesFault::Empty => "Empty",
            PlacesFault::NoMemory => "NoMemory",
        }
    }

    /// The faulty line, from 1. `None` for `Empty` and `NoMemory`, which have none.
    pub fn line(&self) -> Option<usize>
        ensures { result ≡ fault_line self.now }
    {
        match self {
            PlacesFault::AtLine { line, .. } => Some(*line),
            PlacesFault::Empty => None,
            PlacesFault::NoMemory => None,
        }
    }
}

impl LineFault {
    /// The fault of a text that has this one on a line, from 1.
    pub(super) fn at(self, line: usize) -> PlacesFault
        ensures { result ≡ at_line self line }
    {
        PlacesFault::AtLine { line, fault: self }
    }
}
