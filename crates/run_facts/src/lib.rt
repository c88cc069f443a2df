//! What is read of scenario texts, what becomes of one node on which bytes arrive, on what a node spends its cycles,
//! what comes out of samples, and what a sniffer gives, from text files. What each case comes to is written below it,
//! to be compared with what independent programs give.
#![tactic(auto)]

mod nodes;
mod profiles;
mod report;
mod running;
mod samples;
mod scenarios;
mod sniffs;
mod trials;
mod writing;

pub use nodes::do_nodes;
pub use profiles::do_profiles;
pub use samples::do_samples;
pub use scenarios::do_scenarios;
pub use sniffs::do_sniffs;
