// Which keys a table may have.
ghost use Rattle.std.specs.Prelude.{◌≡◌};
ghost use Rattle.toml.specs.View.{table_view};
ghost use Rattle.scenario_file.specs.Rules.{version_of, most_cycles, is_known};

use crate::document::number_at;
use air_base::{LAST_CYCLE, LAST_SHORT_CYCLE};
use toml::Table;

/// The kind of a table.
#[derive(Clone, Copy)]
pub enum Keys {
    Top,
    OfNode,
    OfLink,
    OfInput,
}

/// The version of a text.
#[derive(Clone, Copy)]
pub enum Version {
    First,
    Second,
    Third,
}

/// The version whose rules a document has. That its number is one of them is a rule by itself.
#[tactic(auto, using(crate::proofs::Held::version_is))]
pub fn version_of(table: &Table) -> Version
    ensures { result ≡ version_of (table_view table.now) }
{
    match number_at(table, "version", 1) {
        3 => Version::Third,
        2 => Version::Second,
        _ => Version::First,
    }
}

/// The largest number of cycles.
pub fn most_cycles(version: Version) -> u64
    ensures { result ≡ most_cycles version }
{
    match version {
        Version::First | Version::Second => LAST_SHORT_CYCLE,
        Version::Third => LAST_CYCLE,
    }
}

/// Whether a table of this kind may have this key.
#[tactic(auto, unfolding(crate::specs::Rules::is_top_key, crate::specs::Rules::is_link_key, crate::specs::Rules::is_input_key))]
pub fn is_known(version: Version, keys: Keys, key: &str) -> bool
    ensures { result ≡ is_known version keys key.now }
{
    match keys {
        Keys::Top => [
            "version",
            "cycles",
            "window",
            "latency",
            "byte_time",
            "node",
            "link",
            "input",
        ]
        .contains(&key),
        Keys::OfNode => key == "image",
        Keys::OfLink => match version {
            Version::First => ["from", "to"].contains(&key),
            Version::Second => ["from", "to", "latency"].contains(&key),
            Version::Third => ["from", "to", "latency", "open"].contains(&key),
        },
        Keys::OfInput => ["node", "at", "hex", "every"].contains(&key),
    }
}
