//! All nodes of a network on one thread, from any moment on. The node that is furthest behind takes a step, and goes on
//! while no byte that another has still to send could reach it: so whenever a node samples, all that it could hear is in
//! the record of the sends. Where they begin, at reset or in a saved state, is what [`Begins`] says.
#![tactic(auto)]

mod begins;
mod begun;
mod flight;
mod latency;
mod law;
mod order;
mod places;
mod record;
mod rows;
mod shadow;
mod sights;
mod turns;
mod watch;
mod watched_run;

pub use begins::Begins;
pub use law::{changes_law, joined_law};
pub use order::{put_behind, sort};
pub use record::{kept_sends, record_of};
pub use rows::{pass_to, rows_to};
pub use shadow::Shadow;
pub use sights::Sights;
pub use watched_run::WatchedRun;
