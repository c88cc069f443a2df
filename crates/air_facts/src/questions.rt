// What the crates answer to the questions of a case file.
ghost use Rattle.std.specs.Prelude.{◌≡◌, ◌↔◌, ◌≤◌, IfOk, IsTrue};
ghost use Rattle.world_core.specs.Topology.{IsShort};

use crate::logs::listens;
use crate::plain::{are_inside, is_consistent};
use crate::setting::Setting;
use air_base::Ask;
use air_cases::{Answer, Fault, Section, byte_of, is_asked};
use list_world::{ListWorld, heard_of};
use std::alloc::Global;
use sync_core::{Core, ReplayFault, Step, replay};
use world_core::{Topo, TopoFault, World, WorldFault};

fn of_topo(got: Result<Topo, TopoFault>) -> Answer {
    match got {
        Ok(_) => Answer::Accepted,
        Err(TopoFault::Range) => Answer::Range,
        Err(TopoFault::SelfLink { place }) => Answer::SelfLink(place as u64),
        Err(TopoFault::TwiceLinked { place }) => Answer::TwiceLinked(place as u64),
    }
}

fn of_world(got: Result<ListWorld, WorldFault>) -> Answer {
    match got {
        Ok(_) => Answer::Accepted,
        Err(WorldFault::SendOrder { place }) => Answer::SendOrder(place as u64),
        Err(WorldFault::AskOrder { place }) => Answer::AskOrder(place as u64),
    }
}

fn by_new(world: &air_cases::Setting) -> Result<Answer, Fault> {
    let links = world.links.clone()?;
    Ok(of_topo(Topo::new(
        world.nodes,
        world.limit,
        world.latency,
        world.byte_time,
        links,
    )))
}

fn by_latencies(world: &air_cases::Setting) -> Result<Answer, Fault> {
    let links = world.links.clone()?;
    let own = world.own.clone()?;
    Ok(of_topo(Topo::with_latencies(
        world.nodes,
        world.limit,
        world.latency,
        world.byte_time,
        links,
        own,
    )))
}

// What a node hears of all the sends, which are to lie inside the topology.
fn hears(setting: &Setting, node: u8, cycle: u64) -> Result<Answer, Fault> {
    let topo = setting.world.lawful_topo()?;
    if !are_inside(&topo, &setting.world.sends) {
        return Err(Fault::Unreadable);
    }
    Ok(Answer::Heard(heard_of(&topo, &setting.world.sends, node, cycle)))
}

// Whether the record of sends is the one that is given.
fn is_record(setting: &Setting) -> Answer {
    if setting.log.sends() == setting.record.as_slice() {
        Answer::State
    } else {
        Answer::OtherState
    }
}

// The answer of a reader of the topology, or of what is heard.
fn of_reader(setting: &Setting, word: &str, numbers: &[u64]) -> Result<Answer, Fault> {
    let topo = setting.world.lawful_topo()?;
    match (word, numbers) {
        ("reach", []) => Ok(Answer::Number(topo.reach())),
        ("linked", [from, to]) => Ok(Answer::Holds(topo.linked(byte_of(*from)?, byte_of(*to)?))),
        ("latency_of", [from, to]) => Ok(Answer::Number(topo.latency_of(
            byte_of(*from)?,
            byte_of(*to)?,
        ))),
        ("is_open", [from, to, cycle]) => Ok(Answer::Holds(topo.is_open(
            byte_of(*from)?,
            byte_of(*to)?,
            *cycle,
        ))),
        ("needs", [from, to, cycle]) => Ok(Answer::Holds(topo.needs(
            byte_of(*from)?,
            byte_of(*to)?,
            *cycle,
        ))),
        ("at", [node, cycle]) => hears(setting, byte_of(*node)?, *cycle),
        ("listen", [node, cycle]) => listens(&setting.log, &topo, byte_of(*node)?, *cycle),
        ("kept", []) => Ok(is_record(setting)),
        _ => Err(Fault::Unreadable),
    }
}

// The core after the steps, in the same world.
fn replayed(alloc: Global, world: ListWorld, steps: &[Step]) -> Result<Core<ListWorld>, ReplayFault>
    requires { IsShort world.topo }
    ensures { IfOk result (λ core. core.world ≡ world) }
{
    match replay(alloc, world, steps) {
        Ok(core) => Ok(core),
        Err(fault) => Err(fault),
    }
}

fn is_short(world: &ListWorld) -> bool
    ensures { IsTrue result ↔ IsShort world.now.topo }
{
    world.topo().limit() <= 10_000_000
}

// Whether the clocks and counts of so many nodes are these.
fn are_numbers(core: &Core<ListWorld>, nodes: u8, clocks: &[u64], sent: &[u64]) -> bool
    requires { nodes ≤ core.now.world.topo.nodes }
{
    if clocks.len() != usize::from(nodes) || sent.len() != usize::from(nodes) {
        return false;
    }
    for node in 0..nodes {
        let place = usize::from(node);
        if core.clock(node) != clocks[place] || core.sent(node) != sent[place] {
            return false;
        }
    }
    true
}

// Whether the core is in the state that is given.
fn is_given(core: &Core<ListWorld>, nodes: u8, setting: &Setting) -> bool
    requires { nodes ≤ core.now.world.topo.nodes }
{
    are_numbers(core, nodes, &setting.clocks, &setting.sent)
        && core.sends() == setting.record.as_slice()
        && core.samples() == setting.samples.as_slice()
}

// To what the steps lead.
fn leads_to(alloc: Global, setting: &Setting) -> Result<Answer, Fault> {
    let world = setting.world.world()?;
    if !is_short(&world) {
        return Err(Fault::Unreadable);
    }
    let nodes = world.topo().nodes();
    match replayed(alloc, world, &setting.steps) {
        Ok(core) => Ok(if is_given(&core, nodes, setting) {
            Answer::State
        } else {
            Answer::OtherState
        }),
        Err(ReplayFault::Illegal { place }) => Ok(Answer::Illegal(place as u64)),
        Err(ReplayFault::NoMemory) => Err(Fault::NoMemory),
    }
}

// What a sample of the world is answered after the steps.
fn sampled(alloc: Global, setting: &Setting, node: u8, cycle: u64) -> Result<Answer, Fault> {
    let world = setting.world.world()?;
    if !is_short(&world) {
        return Err(Fault::Unreadable);
    }
    if !is_asked(world.asks(), &Ask { node, cycle }) {
        return Err(Fault::Unreadable);
    }
    match replayed(alloc, world, &setting.steps) {
        Ok(mut core) => Answer::of_sampled(core.sample(node, cycle)),
        Err(ReplayFault::Illegal { place }) => Ok(Answer::Illegal(place as u64)),
        Err(ReplayFault::NoMemory) => Err(Fault::NoMemory),
    }
}

// Whether the state that is given is consistent.
fn agrees(alloc: Global, setting: &Setting) -> Result<Answer, Fault> {
    let world = setting.world.world()?;
    let so = is_consistent(
        alloc,
        &world,
        &setting.clocks,
        &setting.sent,
        setting.floor,
        &setting.record,
        &setting.samples,
    )?;
    Ok(Answer::Holds(so))
}

/// What the crates answer to a question; `Unreadable` where the section is none.
pub fn ask_crates(
    alloc: Global,
    setting: &Setting,
    section: &Section<'_>,
) -> Result<Answer, Fault> {
    match (section.word, section.numbers.as_slice()) {
        ("new", []) => by_new(&setting.world),
        ("with_latencies", []) => by_latencies(&setting.world),
        ("with_spans", []) => Ok(of_topo(setting.world.topo()?)),
        ("world", []) => Ok(of_world(setting.world.listed_world()?)),
        ("replay", []) => leads_to(alloc, setting),
        ("then", [node, cycle]) => sampled(alloc, setting, byte_of(*node)?, *cycle),
        ("consistent", []) => agrees(alloc, setting),
        (word, numbers) => of_reader(setting, word, numbers),
    }
}
