//! A scenario as a world of the air, and one of its nodes stepped by itself.
//!
//! A [`Scenario`] is the topology, the images, the scripts and the window of a network; its sends and samples are those
//! of the single global order of cycles (`world_core`). A [`Runner`] runs one node of it and tells at each event where
//! in that order the node stands; its rows and its number of sends follow from the place.
#![tactic(auto)]

mod law;
mod restore;
mod runner;
mod scenario;

pub use law::order_law;
pub use runner::{Event, Runner};
pub use scenario::Scenario;
