// The steps of a node that take the lock, or wait until its words show what was done under it.
ghost use Rattle.std.specs.Prelude.{◌≡◌, ◌+◌, ◌≤◌, ◌<◌, true};
ghost use Rattle.std.specs.List.{Contains};
ghost use Rattle.world_core.specs.Sends.{IsSendNumber};
ghost use Rattle.neighbour_sync.specs.Seats.{node_told};
ghost use Rattle.world_core.specs.Kept.{epoch};
ghost use Rattle.neighbour_sync.specs.Tries.{IsTried};

use crate::NodeSeat;
use crate::answers::{Behind, SampleOutcome};
use crate::looking::first_behind;
use crate::session::Session;
use crate::shared::Shared;
use air_base::{Sampled, Send};
use crossbeam_utils::Backoff;
use std::sync::Wait;
use world_core::{Topo, World};

/// Posts a send under the lock, and looks once whether the node's sent word counts it.
pub fn post_once<W: World, N: Session, R: Wait>(
    rt: &R,
    shared: &Shared<W, N>,
    seat: &mut NodeSeat,
    send: Send,
    number: u64,
) -> bool
    requires table { seat.old.table ≡ N.table }
    requires number { IsSendNumber N.world number send }
    requires early { send.cycle < N.floor + epoch }
    ensures told { result ≡ true → number < seat.new.told }
    ensures rises { seat.old.told ≤ seat.new.told }
    ensures same { seat.new ≡ node_told seat.old seat.new.told }
{
    // Whatever it answers, the word shows how many stand there.
    let _ = shared.post(rt, send, number);
    shared.clocks().see_sent(seat) > number
}

/// The same, again and again until the word counts it.
pub fn post_until_seen<W: World, N: Session, R: Wait>(
    rt: &R,
    shared: &Shared<W, N>,
    seat: &mut NodeSeat,
    send: Send,
    number: u64,
)
    requires table { seat.old.table ≡ N.table }
    requires number { IsSendNumber N.world number send }
    requires early { send.cycle < N.floor + epoch }
    ensures told { number < seat.new.told }
    ensures rises { seat.old.told ≤ seat.new.told }
    ensures same { seat.new ≡ node_told seat.old seat.new.told }
{
    let backoff = Backoff::new();
    for _ in rt.forever() {
        if post_once(rt, shared, seat, send, number) {
            return;
        }
        backoff.snooze();
    }
    unreachable!()
}

/// Looks at the halt and then at the clocks of those that the node may hear, and asks the record where all of them are
/// far enough.
pub fn try_once<W: World, N: Session, R: Wait>(
    rt: &R,
    shared: &Shared<W, N>,
    seat: &mut NodeSeat,
    topo: &Topo,
    cycle: u64,
) -> Result<SampleOutcome, Behind>
    requires session { (seat.old.table ≡ N.table) × (seat.old.world ≡ N.world) }
    requires topo { topo.now ≡ seat.old.world.topo }
    requires asked { Contains N.world.asks record { node = seat.old.number; cycle = cycle } }
    requires floor { N.floor ≤ cycle }
    ensures { IsTried N.world seat.old cycle result seat.new }
{
    let clocks = shared.clocks();
    let node = seat.number();
    if clocks.halted(seat) {
        return Ok(SampleOutcome::Halted);
    }
    for _ in rt.forever() {
        if let Some(behind) = first_behind(clocks, seat, topo, cycle) {
            return Err(behind);
        }
        match shared.sample(rt, node, cycle) {
            Sampled::Heard(heard) => return Ok(SampleOutcome::Heard(heard)),
            Sampled::NoMemory => return Ok(SampleOutcome::NoMemory),
            // The record is asked again once this node has seen for itself that nobody is behind.
            Sampled::NotYet { .. } => {}
        }
    }
    unreachable!()
}
