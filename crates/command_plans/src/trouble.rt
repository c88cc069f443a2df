// Why a call does not come to its end.
use asm_text::AsmFault;
use ihex_loader::HexFault;
use moves_text::MovesFault;
use places_text::PlacesFault;
use scenario_file::ScenarioFault;
use state_text::StateFault;

/// Why a scenario is refused.
#[derive(Clone, Copy)]
pub enum ScenarioCause {
    /// Its text has more than 524,288 bytes.
    TooLong,
    /// The lowest fault of its text.
    Faulty(ScenarioFault),
}

/// Why an image is refused.
#[derive(Clone, Copy)]
pub enum ImageCause {
    /// Its text has more than 1,048,576 bytes.
    TooLong,
    /// The first thing that is wrong with its text.
    Faulty(HexFault),
}

/// Why a source is refused.
#[derive(Clone, Copy)]
pub enum SourceCause {
    /// Its text has more than 1,048,576 bytes.
    TooLong,
    /// The fault of its text that decides.
    Faulty(AsmFault),
}

/// Why a saved state is refused.
#[derive(Clone, Copy)]
pub enum StateCause {
    /// Its text has more than 4,194,304 bytes.
    TooLong,
    /// The fault of its first faulty line; or that a run has no such state, since the epoch ends at or behind the
    /// limit, or the cycle lies behind it.
    Faulty(StateFault),
    /// It is of a later cycle than the one that is to be looked at.
    PastCycle,
    /// A node of the state that a run from it comes to has executed more instructions than a state can say.
    TooMany,
}

/// Why the moves of a sweep are refused.
#[derive(Clone, Copy)]
pub enum MovesCause {
    /// Their text has more than 4,194,304 bytes.
    TooLong,
    /// The first thing that is wrong with their text.
    Faulty(MovesFault),
}

/// Why the places that are to be watched are refused.
#[derive(Clone, Copy)]
pub enum PlacesCause {
    /// Their text has more than 131,072 bytes.
    TooLong,
    /// The first thing that is wrong with their text.
    Faulty(PlacesFault),
}

/// What is refused.
#[derive(Clone, Copy)]
pub enum Complaint<'n> {
    /// The words of the command line.
    BadWords,
    /// The scenario in this file.
    BadScenario(&'n str, ScenarioCause),
    /// The image in this file.
    BadImage(&'n str, ImageCause),
    /// The source in this file.
    BadSource(&'n str, SourceCause),
    /// The saved state in this file, or the one that this scenario is to come to.
    BadState(&'n str, StateCause),
    /// The moves of a sweep in this file.
    BadMoves(&'n str, MovesCause),
    /// The places that are to be watched in this file.
    BadPlaces(&'n str, PlacesCause),
}

/// Why a call stops short.
#[derive(Clone, Copy)]
pub enum Trouble<'n> {
    /// A write to the output failed.
    OutFailed,
    /// Want of memory.
    NoMemory,
    /// A read of this file failed.
    ReadFailed(&'n str),
    /// The call is refused.
    Refused(Complaint<'n>),
}
