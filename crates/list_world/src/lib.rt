//! A world of the air that is given by its lists, whose laws are looked after entry by entry, and what a node hears in
//! it, send by send: the rules of `world_core` in their slow form, by which stored runs tell what the fast ones should
//! answer.
#![tactic(auto)]

mod hear;
mod laws;
mod lists;

pub use hear::heard_of;
pub use lists::ListWorld;
