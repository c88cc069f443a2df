// A list of steps, from the opening.
ghost use Rattle.std.specs.Prelude.{◌≡◌, ◌↔◌, ◌≤◌, IsTrue, IfOk, MatchOption, MatchResult, length};
ghost use Rattle.world_core.specs.Topology.{IsShort};
ghost use Rattle.world_core.specs.Sends.{sends_of, sends_below, IsSendNumber};
ghost use Rattle.world_core.specs.Consistent.{IsConsistent};
ghost use Rattle.world_core.specs.Steps.{opening, MayRaise};
ghost use Rattle.sync_core.specs.Run.{MayStep, after_step, IsStepped, IsReplayed, IsReplayFault};

use crate::{Core, ReplayFault, Step};
use air_base::{Ask, Sampled, Send};
use list_world::ListWorld;
use std::alloc::Global;
use world_core::{NoMemory, World};

// How many sends of one node lie below a cycle.
#[tactic(auto, unfolding(world_core::specs::Sends::sends_below))]
fn count_below(sends: &[Send], node: u8, cycle: u64) -> u64
    ensures { result ≡ sends_below sends.now node cycle }
{
    sends
        .iter()
        .filter(|s| s.node == node)
        .filter(|s| s.cycle < cycle)
        .count() as u64
}

// The send with this number, counted from 0, of a node.
fn send_number(world: &ListWorld, node: u8, number: u64) -> Option<Send>
    ensures { MatchOption result (length (sends_of node world.now.sends) ≤ number) (λ x. (x.node ≡ node) × IsSendNumber world.now number x) }
{
    let mut left = number;
    for send in world.sends() {
        if send.node == node {
            if left == 0 {
                return Some(*send);
            }
            left -= 1;
        }
    }
    None
}

fn may_raise(core: &Core<ListWorld>, node: u8, clock: u64) -> bool
    ensures { IsTrue result ↔ MayRaise core.now node clock }
{
    let world = core.world();
    if node >= world.topo().nodes() {
        return false;
    }
    if clock < core.clock(node) {
        return false;
    }
    if clock > world.topo().limit() {
        return false;
    }
    count_below(world.sends(), node, clock) <= core.sent(node)
}

// Raises the clock, or answers false where that is not allowed.
fn try_raise(core: &mut Core<ListWorld>, node: u8, clock: u64) -> bool
    ensures { IsStepped core.old (Step.Raise node clock) result core.new }
{
    if !may_raise(core, node, clock) {
        return false;
    }
    core.raise(node, clock);
    true
}

// Posts the next send of the node, or answers false where it has none.
fn try_post(core: &mut Core<ListWorld>, node: u8) -> bool
    ensures { IsStepped core.old (Step.Post node) result core.new }
{
    if node >= core.world().topo().nodes() {
        return false;
    }
    match send_number(core.world(), node, core.sent(node)) {
        Some(send) => {
            core.post(send);
            true
        }
        None => false,
    }
}

// Samples, or answers false where the world has no such sample or it has to wait.
fn try_sample(core: &mut Core<ListWorld>, node: u8, cycle: u64) -> Result<bool, NoMemory>
    ensures { IfOk result (λ b. IsStepped core.old (Step.Sample node cycle) b core.new) }
{
    if !core.world().asks().contains(&Ask { node, cycle }) {
        return Ok(false);
    }
    match core.sample(node, cycle) {
        Sampled::Heard(_) => Ok(true),
        Sampled::NotYet { .. } => Ok(false),
        Sampled::NoMemory => Err(NoMemory),
    }
}

// Takes the step, or answers false where it is not allowed.
fn try_step(core: &mut Core<ListWorld>, step: Step) -> Result<bool, NoMemory>
    ensures { IfOk result (λ b. IsStepped core.old step b core.new) }
{
    match step {
        Step::Raise { node, clock } => Ok(try_raise(core, node, clock)),
        Step::Post { node } => Ok(try_post(core, node)),
        Step::Sample { node, cycle } => try_sample(core, node, cycle),
    }
}

/// The core after all these steps, from the opening, in a world whose limit is at most 10,000,000 cycles. It is `Ok`
/// only where each step is allowed where it comes. `Illegal` names exactly the first step that is not: a raise that
/// falls, passes the limit or passes a send that is not posted, a post of a node that has no further send, a sample
/// that the world does not have or that has to wait.
pub fn replay(
    alloc: Global,
    world: ListWorld,
    steps: &[Step],
) -> Result<Core<ListWorld>, ReplayFault>
    requires { IsShort world.topo }
    ensures replayed { MatchResult result (IsReplayed world steps.now) (IsReplayFault world steps.now) }
    ensures consistent { IfOk result IsConsistent }
{
    let mut core = match Core::new(alloc, world) {
        Ok(core) => core,
        Err(NoMemory) => return Err(ReplayFault::NoMemory),
    };
    for (place, step) in steps.iter().enumerate() {
        match try_step(&mut core, *step) {
            Ok(true) => {}
            Ok(false) => return Err(ReplayFault::Illegal { place }),
            Err(NoMemory) => return Err(ReplayFault::NoMemory),
        }
    }
    Ok(core)
}
