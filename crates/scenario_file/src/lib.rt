//! The text of a scenario, TOML in versions 1 to 3: who hears whom, which image each node runs, and what arrives at it.
//! The accepted scenario number for number, or the lowest fault that applies.
#![tactic(auto)]

mod amounts;
mod asked;
mod defaults;
mod document;
mod fault;
mod faults;
mod inputs;
mod keys;
mod kinds;
mod links;
mod ranges;
mod rules;
mod text;

pub use defaults::{BYTE_TIME, LATENCY, no_script};
pub use fault::ScenarioFault;
pub use ranges::WIDEST_WINDOW;
pub use text::{ScenarioText, read};
