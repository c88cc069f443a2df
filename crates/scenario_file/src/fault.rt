// Why a scenario is refused.
ghost use Rattle.std.specs.Prelude.{◌≡◌, ◌≤◌, length};
ghost use Rattle.scenario_file.specs.Faults.{fault_name};

use thiserror::Error;

/// Why a scenario's text was refused: of the first ten the lowest that applies, in this order.
#[derive(Clone, Copy, Debug, Error)]
pub enum ScenarioFault {
    /// The bytes are no TOML document.
    #[error("not a TOML document")]
    NotToml,
    /// A key that its table does not have in this version, at the top or in a table of `node`, `link` or `input`.
    #[error("a key that its table does not have")]
    UnknownKey,
    /// No `cycles`, a node without `image`, a link without `from` or `to`, or an input without `node`, `at` or `hex`.
    #[error("a key is missing")]
    Missing,
    /// A value that is no whole number, text, array of tables or array of pairs of numbers, where its key asks for one.
    #[error("a value of the wrong kind")]
    WrongKind,
    /// A number out of its range, a text of the wrong size, or too many spans or script bytes in all.
    #[error("a value out of its range")]
    OutOfRange,
    /// No node.
    #[error("no node")]
    NoNodes,
    /// More than 64 nodes.
    #[error("more than 64 nodes")]
    TooManyNodes,
    /// A link from a node to itself.
    #[error("a link from a node to itself")]
    SelfLink,
    /// Two links from the same node to the same node.
    #[error("two links from one node to another")]
    TwiceLinked,
    /// Two inputs of one node.
    #[error("two inputs of one node")]
    TwiceScripted,
    /// An allocation was refused.
    #[error("out of memory")]
    NoMemory,
}

impl ScenarioFault {
    /// The name of the fault, as `UnknownKey`: at most 13 bytes.
    pub fn name(&self) -> &'static str
        ensures name { result.now ≡ fault_name self.now }
        ensures short { length result.now ≤ 13 }
    {
        match self {
            ScenarioFault::NotToml => "NotToml",
            ScenarioFault::UnknownKey => "UnknownKey",
            ScenarioFault::Missing => "Missing",
            ScenarioFault::WrongKind => "WrongKind",
            ScenarioFault::OutOfRange => "OutOfRange",
            ScenarioFault::NoNodes => "NoNodes",
            ScenarioFault::TooManyNodes => "TooManyNodes",
            ScenarioFault::SelfLink => "SelfLink",
            ScenarioFault::TwiceLinked => "TwiceLinked",
            ScenarioFault::TwiceScripted => "TwiceScripted",
            ScenarioFault::NoMemory => "NoMemory",
        }
    }
}
