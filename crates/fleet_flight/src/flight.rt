// Steps of all nodes.
ghost use Rattle.std.specs.Prelude.{◌≡◌, ◌<◌, ◌≤◌, ◌^◌, true, OnOk};
ghost use Rattle.air_base.specs.Bounds.{LAST_CYCLE};
ghost use Rattle.std.specs.List.{All};
ghost use Rattle.world_core.specs.Topology.{IsInside};
ghost use Rattle.node_core.specs.Cycle.{node_kind};
ghost use Rattle.fleet_flight.specs.Origin.{flown};
ghost use Rattle.fleet_flight.specs.Paused.{CanPost, IsHeld, IsPaused};
ghost use Rattle.fleet_flight.specs.Turns.{Takes, is_live};
ghost use Rattle.air_base.specs.declared.bounds.TheConstants.{MOST_NODES};

use crate::Begins;
use crate::latency::lookahead;
use crate::record::post;
use crate::turns::{behind, next_turn};
use air_base::Send;
use avr_base::NoMemory;
use node_core::{Node, Reached};
use std::alloc::Global;
use world_core::{SendLog, Topo};

// One step of a live node: its sample is answered from the record, or it runs up to its next send or sample before the
// cycle `end`. What it sends is put into the record, from which no node needs what is over at the cycle `low`.
fn advance(
    alloc: Global,
    node: &mut Node,
    number: u8,
    topo: &Topo,
    log: &mut SendLog,
    low: u64,
    end: u64,
) -> Result<(), NoMemory>
    requires live { is_live node_kind end node.old ≡ true }
    requires early { end ≤ LAST_CYCLE }
    requires number { number < MOST_NODES }
    requires inside { All (λ x. IsInside topo.now x.node x.cycle) log.old.sends }
    requires post { CanPost number node.old.cycle log.old.sends }
    ensures { OnOk result (Takes node_kind topo.now number low end node.old log.old.sends node.new log.new.sends) }
{
    if node.asking() {
        let heard = log.heard(topo, number, node.cycle());
        node.answer(heard);
        return Ok(());
    }
    match node.run_until(end) {
        Reached::Sent { cycle, byte } => {
            let send = Send {
                node: number,
                cycle,
                byte,
            };
            post(alloc, topo, log, send, low)?;
            Ok(())
        }
        Reached::NoMemory => Err(NoMemory),
        Reached::Ask { .. } => Ok(()),
        Reached::Cycle => Ok(()),
        Reached::Stopped => Ok(()),
    }
}

/// All nodes from the cycle `floor` to the cycle `end`. The node that is furthest behind takes a step, and goes on while
/// no byte that another has still to send could reach it. Of the record nothing is dropped that is not over at the cycle
/// `hold`.
pub fn run_to<B: Begins>(
    alloc: Global,
    from: &B,
    nodes: &mut Vec<Node>,
    log: &mut SendLog,
    floor: u64,
    end: u64,
    hold: u64,
) -> Result<(), NoMemory>
    requires paused { IsPaused (flown (B.origin from.now)) floor floor nodes.old.items log.old.sends }
    requires more { floor ≤ end }
    requires end { end ≤ (B.origin from.now).topo.limit }
    requires hold { floor ≤ hold }
    ensures paused { OnOk result (IsPaused (flown (B.origin from.now)) floor end nodes.new.items log.new.sends) }
    ensures held { OnOk result (IsHeld (flown (B.origin from.now)) hold end log.new.sends) }
{
    let topo = from.topo();
    let ahead = lookahead(topo);
    let mut turn = behind(nodes, end, ahead);
    while let Some(now) = turn {
        let number = now.number as u8;
        advance(
            alloc,
            &mut nodes[now.number],
            number,
            topo,
            log,
            now.low.min(hold),
            end,
        )?;
        turn = next_turn(nodes, end, ahead, now);
    }
    Ok(())
}
