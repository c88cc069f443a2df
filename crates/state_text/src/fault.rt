// Why a text is no state.
ghost use Rattle.std.specs.Prelude.{◌≡◌};
ghost use Rattle.state_text.specs.Reading.{out_of_bounds};
ghost use Rattle.state_text.specs.declared.fault.StateFault.TheVariants.{NoMemory};

use std::alloc::{AllocError, AllocFailed};

/// Why a text is no state. The first faulty line decides, lines being counted from 1.
#[derive(Clone, Copy, Debug, PartialEq, Eq)]
pub enum StateFault {
    /// The line is missing, stands behind `end`, or has not the form of its place.
    NotAState { line: usize },
    /// The line has its form and breaks a bound.
    OutOfBounds { line: usize },
    /// The state's cycle, in line 2, is no end of an epoch below the limit.
    PastEnd,
    /// An allocation was refused.
    NoMemory,
}

impl From<AllocError> for StateFault {
    ghost from_gives = { λ _ fault. fault ≡ NoMemory };

    fn from(_error: AllocError) -> Self {
        StateFault::NoMemory
    }
}

impl<T: Drop> From<AllocFailed<T>> for StateFault {
    ghost from_gives = { λ _ fault. fault ≡ NoMemory };

    fn from(_error: AllocFailed<T>) -> Self {
        StateFault::NoMemory
    }
}

impl StateFault {
    /// The fault of a line that has its form and breaks a bound.
    pub(super) fn out_of_bounds(line: usize) -> StateFault
        ensures { result ≡ out_of_bounds line }
    {
        if line == 2 {
            return StateFault::PastEnd;
        }
        StateFault::OutOfBounds { line }
    }
}
