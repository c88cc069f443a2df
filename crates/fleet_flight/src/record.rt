// The record of the sends that may still be heard.
ghost use Rattle.std.specs.Prelude.{◌≡◌, ◌<◌, ◌≤◌, ◌+◌, ◌^◌, ◌++◌, ◌∷◌, [], length, IfOk, OnOk};
ghost use Rattle.std.specs.List.{All, filter};
ghost use Rattle.world_core.specs.Chain.{Rises, log_of};
ghost use Rattle.world_core.specs.Kept.{is_kept};
ghost use Rattle.fleet_flight.specs.Paused.{CanPost};
ghost use Rattle.fleet_flight.specs.Turns.{Grows};
ghost use Rattle.send_order.specs.Order.{AreOrdered};
ghost use Rattle.air_base.specs.declared.bounds.TheConstants.{MOST_NODES};

use air_base::Send;
use avr_base::NoMemory;
use send_order::ordered;
use std::alloc::Global;
use world_core::{SendLog, Topo};

// Puts sends into the record, behind those that it has. There is room for them.
fn append(log: &mut SendLog, sends: &[Send])
    requires nodes { All (λ x. x.node < MOST_NODES) sends.now }
    requires rises { Rises (log.old.sends ++ sends.now) }
    requires room { length log.old.sends + length sends.now ≤ log.old.room }
    ensures { log.new ≡ log_of (log.old.sends ++ sends.now) log.old.room }
{
    for send in sends {
        log.push(*send);
    }
}

/// A record of these sends, of which each node's rise, with room for `room`.
pub fn record_of(alloc: Global, sends: &[Send], room: usize) -> Result<SendLog, NoMemory>
    requires nodes { All (λ x. x.node < MOST_NODES) sends.now }
    requires rises { Rises sends.now }
    requires room { length sends.now ≤ room }
    ensures { IfOk result (λ log. log ≡ log_of sends.now room) }
{
    let Ok(mut log) = SendLog::new(alloc, room) else {
        return Err(NoMemory);
    };
    append(&mut log, sends);
    Ok(log)
}

// Drops what is over at the cycle `floor`, and takes more room where less than half would be free: so a send is copied a
// few times at most, however often a record is full.
fn make_room(alloc: Global, topo: &Topo, log: &mut SendLog, floor: u64) -> Result<(), NoMemory>
    requires nodes { All (λ x. x.node < MOST_NODES) log.old.sends }
    requires rises { Rises log.old.sends }
    ensures sends { OnOk result (log.new.sends ≡ filter (is_kept topo.now floor) log.old.sends) }
    ensures room { OnOk result (length log.new.sends < log.new.room) }
{
    log.cut(topo, floor);
    let room = (log.sends().len() + 1).saturating_mul(2);
    if room <= log.room() {
        return Ok(());
    }
    let longer = record_of(alloc, log.sends(), room)?;
    *log = longer;
    Ok(())
}

// Puts a send into a record that has no room for it, behind what of it is not over at the cycle `floor`.
fn post_to_full(
    alloc: Global,
    topo: &Topo,
    log: &mut SendLog,
    send: Send,
    floor: u64,
) -> Result<(), NoMemory>
    requires node { send.node < MOST_NODES }
    requires behind { CanPost send.node send.cycle log.old.sends }
    ensures { OnOk result (log.new.sends ≡ filter (is_kept topo.now floor) log.old.sends ++ send ∷ []) }
{
    make_room(alloc, topo, log, floor)?;
    log.push(send);
    Ok(())
}

/// Puts a send into the record, behind those that it has. Where there is no room for it, what is over at the cycle
/// `floor` is dropped first.
pub fn post(
    alloc: Global,
    topo: &Topo,
    log: &mut SendLog,
    send: Send,
    floor: u64,
) -> Result<(), NoMemory>
    requires node { send.node < MOST_NODES }
    requires behind { CanPost send.node send.cycle log.old.sends }
    ensures { OnOk result (Grows topo.now floor log.old.sends send log.new.sends) }
{
    if log.room() <= log.sends().len() {
        return post_to_full(alloc, topo, log, send, floor);
    }
    log.push(send);
    Ok(())
}

/// Those of the record's sends that can still be heard in the cycle `floor` or later, in order of cycle, then node. The
/// record stays as it is.
pub fn kept_sends(
    alloc: Global,
    topo: &Topo,
    log: &SendLog,
    floor: u64,
) -> Result<Vec<Send>, NoMemory>
    requires nodes { All (λ x. x.node < MOST_NODES) log.now.sends }
    requires rises { Rises log.now.sends }
    ensures { IfOk result (λ sends. AreOrdered (filter (is_kept topo.now floor) log.now.sends) sends.items) }
{
    let all = log.sends();
    let mut kept = record_of(alloc, all, all.len())?;
    kept.cut(topo, floor);
    let sends = ordered(alloc, kept.sends())?;
    Ok(sends)
}
