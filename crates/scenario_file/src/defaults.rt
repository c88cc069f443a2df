// What holds where a scenario says nothing.
ghost use Rattle.std.specs.Prelude.{◌≡◌};
ghost use Rattle.scenario_file.specs.Scenario.{no_script};

use serial_ports::Script;
use std::alloc::Global;

/// The cycles from a send to where it is heard first.
pub const LATENCY: u64 = 3_072;

/// The cycles for which a byte is heard.
pub const BYTE_TIME: u64 = 3_072;

/// The cycles from one byte that arrives to the next: those of a frame of ten bits at UBRR 47.
pub const EVERY: u64 = 7_680;

/// The script of a node at which no byte arrives.
pub fn no_script(alloc: Global) -> Script
    ensures { result ≡ no_script }
{
    Script::of(Vec::new(alloc))
}
