//! A store and a sink over memory that tell all that they hold and took, move few bytes at a call, and fail where it is
//! told: what stands for the outside in a stored run, and what a contract over `Store` and `Sink` can be tried on.
#![tactic(auto)]

mod mem_sink;
mod mem_store;

pub use mem_sink::MemSink;
pub use mem_store::MemStore;
