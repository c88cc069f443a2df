// What a program asks of a world before it takes a step whose contract speaks of it.
ghost use Rattle.std.specs.Prelude.{◌≡◌, ◌↔◌, IfOk, IfSome, IsTrue};
ghost use Rattle.std.specs.List.{Contains};
ghost use Rattle.world_core.specs.Sends.{sends_of, sends_below, IsSendNumber};

use air_base::{Ask, Send};
use list_world::ListWorld;
use std::alloc::{AllocError, Global};

/// How many sends of one node lie below a cycle.
#[tactic(auto, unfolding(world_core::specs::Sends::sends_below))]
pub fn count_below(sends: &[Send], node: u8, cycle: u64) -> u64
    ensures { result ≡ sends_below sends.now node cycle }
{
    sends
        .iter()
        .filter(|s| s.node == node)
        .filter(|s| s.cycle < cycle)
        .count() as u64
}

/// The sends of one node.
pub fn own_sends(alloc: Global, node: u8, sends: &[Send]) -> Result<Vec<Send>, AllocError>
    ensures { IfOk result (λ v. v.items ≡ sends_of node sends.now) }
{
    sends
        .iter()
        .filter(|s| s.node == node)
        .copied()
        .collect(alloc)
}

/// Whether a sample is among these.
pub fn is_asked(asks: &[Ask], ask: &Ask) -> bool
    ensures { IsTrue result ↔ Contains asks.now ask.now }
{
    asks.contains(ask)
}

/// The send of a node that has this number, counted from 0.
pub fn send_number(
    alloc: Global,
    world: &ListWorld,
    node: u8,
    number: u64,
) -> Result<Option<Send>, AllocError>
    ensures { IfOk result (λ o. IfSome o (λ x. IsSendNumber world.now number x)) }
{
    let sends = own_sends(alloc, node, world.sends())?;
    if number >= sends.len() as u64 {
        return Ok(None);
    }
    Ok(Some(sends[number as usize]))
}
