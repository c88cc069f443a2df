// What a call answers.
ghost use Rattle.std.specs.Prelude.{◌≡◌};
ghost use Rattle.command_plans.specs.Ends.{status_number};

/// How a call of the program ended.
#[derive(Clone, Copy)]
pub enum Status {
    /// All was read, and all was written. A node's stop is no fault.
    Done,
    /// A write to the output or to the error stream failed.
    SinkFailed,
    /// The words are not accepted.
    BadWords,
    /// A file could not be read.
    ReadFailed,
    /// The scenario is refused.
    BadScenario,
    /// An image is refused.
    BadImage,
    /// Want of memory.
    NoMemory,
    /// The source is refused.
    BadSource,
    /// A saved state is refused, or cannot be had; or the moves of a sweep are refused, or the places that are to be
    /// watched.
    BadState,
}

impl Status {
    /// The exit status of the program: 0 to 8 in the order of the variants.
    #[tactic(auto, unfolding(crate::specs::Ends::status_number))]
    pub fn number(self) -> u8
        ensures { result ≡ status_number self }
    {
        match self {
            Status::Done => 0,
            Status::SinkFailed => 1,
            Status::BadWords => 2,
            Status::ReadFailed => 3,
            Status::BadScenario => 4,
            Status::BadImage => 5,
            Status::NoMemory => 6,
            Status::BadSource => 7,
            Status::BadState => 8,
        }
    }
}
