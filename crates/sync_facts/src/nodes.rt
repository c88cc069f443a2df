// What the two nodes do.
ghost use Rattle.std.specs.Prelude.{◌≡◌, ◌+◌, ◌<◌, true};
ghost use Rattle.std.specs.List.{All};
ghost use Rattle.world_core.specs.Sends.{sends_of};
ghost use Rattle.world_core.specs.Kept.{epoch};

use air_base::{Ask, Send};
use list_world::ListWorld;
use neighbour_sync::{NodeAir, SampleOutcome, Session, Shared};
use std::sync::Wait;
use world_core::{EPOCH, World};

/// Whether all sends lie below this floor and an epoch.
pub fn are_early(sends: &[Send], floor: u64) -> bool
    ensures { result ≡ true → All (λ x. x.cycle < floor + epoch) sends.now }
{
    sends.iter().all(|s| s.cycle.saturating_sub(floor) < EPOCH)
}

/// Posts all sends of a node, each by one try, up to one that is not counted by it.
pub fn post_each<N: Session, R: Wait>(
    rt: &R,
    shared: &Shared<ListWorld, N>,
    mut node: NodeAir,
    sends: &[Send],
)
    requires session { (node.table ≡ N.table) × (node.world ≡ N.world) }
    requires sends { sends.now ≡ sends_of node.number N.world.sends }
    requires early { All (λ x. x.cycle < N.floor + epoch) sends.now }
{
    for place in 0..sends.len() {
        if !node.try_post(rt, shared, sends[place], place as u64) {
            return;
        }
    }
}

/// Posts all sends of a node, and raises its clock past each of them as soon as it is posted.
pub fn send_all<N: Session, R: Wait>(
    rt: &R,
    shared: &Shared<ListWorld, N>,
    world: &ListWorld,
    mut node: NodeAir,
    sends: &[Send],
) -> NodeAir
    requires world { N.world ≡ world.now }
    requires session { (node.table ≡ N.table) × (node.world ≡ N.world) }
    requires sends { sends.now ≡ sends_of node.number N.world.sends }
    requires early { All (λ x. x.cycle < N.floor + epoch) sends.now }
    ensures same { (result.table ≡ node.table) × (result.world ≡ node.world) × (result.number ≡ node.number) }
{
    // The call's clause says that the world is lawful, which what follows rests on.
    let _ = world.topo();
    for place in 0..sends.len() {
        let send = sends[place];
        node.post(rt, shared, send, place as u64);
        let next = send.cycle + 1;
        if node.clock() <= next {
            node.raise(shared, next);
        }
    }
    node
}

/// Takes all samples of a node from the floor on, each as soon as it may, and answers how many of them heard one byte.
pub fn sample_all<N: Session, R: Wait>(
    rt: &R,
    shared: &Shared<ListWorld, N>,
    mut node: NodeAir,
    asks: &[Ask],
    floor: u64,
) -> u64
    requires session { (node.table ≡ N.table) × (node.world ≡ N.world) }
    requires asks { asks.now ≡ N.world.asks }
    requires floor { floor ≡ N.floor }
{
    let mut heard = 0u64;
    for place in 0..asks.len() {
        let ask = asks[place];
        if ask.node == node.number() && ask.cycle >= floor {
            let answer = node.sample_when_passed(rt, shared, ask.cycle);
            if matches!(answer, SampleOutcome::Heard(air) if air.status == 1) {
                heard = heard.saturating_add(1);
            }
        }
    }
    heard
}
