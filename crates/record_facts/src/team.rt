// All nodes of a session, on one thread.
ghost use Rattle.std.specs.Prelude.{◌≡◌, ◌<◌, ◌≤◌, IfOk, true, vec_len};
ghost use Rattle.std.specs.List.{All, Contains};
ghost use Rattle.world_core.specs.Sends.{sends_below, IsSendNumber};

use crate::answer::{of_passed, of_tried};
use air_base::Ask;
use air_cases::{Answer, Fault, Section, byte_of, count_below, is_asked, send_number};
use list_world::ListWorld;
use neighbour_sync::{NodeAir, Session, Shared};
use std::alloc::Global;
use std::marker::PhantomData;
use std::sync::Wait;
use world_core::{EPOCH, World};

/// The parts of all nodes, in order of number.
#[derive(Drop)]
pub struct Team<N: Session> {
    nodes: Vec<NodeAir>,
    of: PhantomData<N>,
    ghost seated: { All (λ n. (n.table ≡ N.table) × (n.world ≡ N.world)) nodes.items },
}

// A node raises its clock, or this answers false where that is forbidden.
fn raise_node<N: Session>(
    shared: &Shared<ListWorld, N>,
    world: &ListWorld,
    node: &mut NodeAir,
    clock: u64,
) -> bool
    requires world { N.world ≡ world.now }
    requires session { (node.old.table ≡ N.table) × (node.old.world ≡ N.world) }
    ensures same { (node.new.table ≡ node.old.table) × (node.new.world ≡ node.old.world) }
{
    let is_allowed = clock >= node.clock()
        && clock <= world.topo().limit()
        && count_below(world.sends(), node.number(), clock) <= node.told();
    if is_allowed {
        node.raise(shared, clock);
    }
    is_allowed
}

// A node posts its send of this number. It would wait for ever where others come before it.
fn post_node<N: Session, R: Wait>(
    rt: &R,
    alloc: Global,
    shared: &Shared<ListWorld, N>,
    world: &ListWorld,
    floor: u64,
    node: &mut NodeAir,
    number: u64,
) -> Result<Answer, Fault>
    requires world { N.world ≡ world.now }
    requires floor { floor ≡ N.floor }
    requires session { (node.old.table ≡ N.table) × (node.old.world ≡ N.world) }
    ensures same { (node.new.table ≡ node.old.table) × (node.new.world ≡ node.old.world) }
{
    let Some(send) = send_number(alloc, world, node.number(), number)? else {
        return Err(Fault::Forbidden);
    };
    if send.node != node.number() || number > node.told() {
        return Err(Fault::Forbidden);
    }
    if send.cycle.saturating_sub(floor) >= EPOCH {
        return Err(Fault::Forbidden);
    }
    node.post(rt, shared, send, number);
    Ok(Answer::Told(node.told()))
}

// Whether a node may sample in this cycle.
fn may_sample(world: &ListWorld, floor: u64, node: u8, cycle: u64) -> bool
    ensures floor { result ≡ true → floor ≤ cycle }
    ensures asked { result ≡ true → Contains world.now.asks record { node = node; cycle = cycle } }
{
    cycle >= floor && is_asked(world.asks(), &Ask { node, cycle })
}

// A node samples in this cycle: it tries to, or waits until it may. It would wait for ever where it cannot sample at
// once.
fn sample_node<N: Session, R: Wait>(
    rt: &R,
    shared: &Shared<ListWorld, N>,
    world: &ListWorld,
    floor: u64,
    node: &mut NodeAir,
    cycle: u64,
    waits: bool,
) -> Result<Answer, Fault>
    requires world { N.world ≡ world.now }
    requires floor { floor ≡ N.floor }
    requires session { (node.old.table ≡ N.table) × (node.old.world ≡ N.world) }
    ensures same { (node.new.table ≡ node.old.table) × (node.new.world ≡ node.old.world) }
{
    if !may_sample(world, floor, node.number(), cycle) {
        return Err(Fault::Forbidden);
    }
    if waits {
        of_passed(node.sample_when_passed(rt, shared, cycle))
    } else {
        of_tried(node.try_sample(rt, shared, cycle))
    }
}

impl<N: Session> Team<N> {
    /// The team of these nodes, which are the session's.
    pub fn new(nodes: Vec<NodeAir>) -> Team<N>
        requires { All (λ n. (n.table ≡ N.table) × (n.world ≡ N.world)) nodes.items }
    {
        Team {
            nodes,
            of: PhantomData,
        }
    }

    /// Gives the nodes back, which are still the session's.
    pub fn into_nodes(self) -> Vec<NodeAir>
        ensures { All (λ n. (n.table ≡ N.table) × (n.world ≡ N.world)) result.items }
    {
        self.nodes
    }

    // The place of a node.
    fn place(&self, node: u64) -> Result<usize, Fault>
        ensures { IfOk result (λ p. p < vec_len self.now.nodes) }
    {
        let place = usize::from(byte_of(node)?);
        if place < self.nodes.len() {
            Ok(place)
        } else {
            Err(Fault::Forbidden)
        }
    }

    /// Takes the step that a section says, `WORD NODE NUMBER ..`. It gives the answer to it, and `None` where it has
    /// none.
    pub fn step<R: Wait>(
        &mut self,
        rt: &R,
        alloc: Global,
        shared: &Shared<ListWorld, N>,
        world: &ListWorld,
        floor: u64,
        section: &Section<'_>,
    ) -> Result<Option<Answer>, Fault>
        requires world { N.world ≡ world.now }
        requires floor { floor ≡ N.floor }
    {
        let (node, rest) = match section.numbers.as_slice() {
            [node, rest @ ..] => (*node, rest),
            _ => return Err(Fault::Unreadable),
        };
        let place = self.place(node)?;
        let node = &mut self.nodes[place];
        match (section.word, rest) {
            ("r", [clock]) => {
                if raise_node(shared, world, node, *clock) {
                    Ok(None)
                } else {
                    Err(Fault::Forbidden)
                }
            }
            ("p", [number]) => {
                let answer = post_node(rt, alloc, shared, world, floor, node, *number)?;
                Ok(Some(answer))
            }
            ("try", [cycle]) => {
                let answer = sample_node(rt, shared, world, floor, node, *cycle, false)?;
                Ok(Some(answer))
            }
            ("wait", [cycle]) => {
                let answer = sample_node(rt, shared, world, floor, node, *cycle, true)?;
                Ok(Some(answer))
            }
            ("halt", []) => {
                node.halt(shared);
                Ok(None)
            }
            _ => Err(Fault::Unreadable),
        }
    }
}
