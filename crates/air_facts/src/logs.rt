// A record of sends: what is posted and cut, and what a node hears of it.
ghost use Rattle.std.specs.Prelude.{◌<◌, ◌↔◌, IsTrue};
ghost use Rattle.std.specs.List.{All};

use crate::plain::are_inside;
use air_base::Send;
use air_cases::{Answer, Fault, own_sends};
use std::alloc::Global;
use world_core::{SendLog, Topo};

// Whether all these sends lie below a cycle.
fn are_below(sends: &[Send], cycle: u64) -> bool
    ensures { IsTrue result ↔ All (λ y. y.cycle < cycle) sends.now }
{
    sends.iter().all(|y| y.cycle < cycle)
}

/// Posts a send; `Unreadable` where it may not come, or there is no room.
pub fn push(alloc: Global, log: &mut SendLog, send: Send) -> Result<(), Fault> {
    if send.node >= 64 || log.sends().len() >= log.room() {
        return Err(Fault::Unreadable);
    }
    let earlier = own_sends(alloc, send.node, log.sends())?;
    if !are_below(&earlier, send.cycle) {
        return Err(Fault::Unreadable);
    }
    log.push(send);
    Ok(())
}

/// What a node hears of the record; `Unreadable` where a send lies outside the topology.
pub fn listens(log: &SendLog, topo: &Topo, node: u8, cycle: u64) -> Result<Answer, Fault> {
    if !are_inside(topo, log.sends()) {
        return Err(Fault::Unreadable);
    }
    Ok(Answer::Heard(log.heard(topo, node, cycle)))
}
