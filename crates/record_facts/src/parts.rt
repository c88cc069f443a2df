// An air between two sessions.
ghost use Rattle.std.specs.Prelude.{◌≡◌};
ghost use Rattle.std.specs.List.{All};
ghost use Rattle.neighbour_sync.specs.Parts.{AreParts};

use crate::team::Team;
use air_cases::{Answers, Fault, Section};
use list_world::ListWorld;
use neighbour_sync::{Air, Clocks, NodeAir, Session, Shared, cut_when_passed, open_air};
use std::alloc::Global;
use std::marker::Brand;
use std::sync::Wait;
use world_core::World;

/// A world, its words, its record, and the parts of its nodes.
#[derive(Drop)]
pub struct Parts {
    world: ListWorld,
    clocks: Clocks<ListWorld>,
    air: Air,
    nodes: Vec<NodeAir>,
    ghost worlds: { (clocks.world ≡ world) × (air.world ≡ world) },
    ghost table: { air.table ≡ clocks.table },
    ghost seated: { All (λ n. (n.table ≡ clocks.table) × (n.world ≡ world)) nodes.items },
}

// Takes the steps of a line and compares the answers. It gives the number of answers.
fn run_steps<N: Session, R: Wait>(
    rt: &R,
    alloc: Global,
    shared: &Shared<ListWorld, N>,
    world: &ListWorld,
    floor: u64,
    team: &mut Team<N>,
    line: &[Section<'_>],
) -> Result<u32, Fault>
    requires world { N.world ≡ world.now }
    requires floor { floor ≡ N.floor }
{
    let mut answers = Answers::none();
    for section in line {
        if !answers.compare(section)? {
            if let Some(got) = team.step(rt, alloc, shared, world, floor, section)? {
                answers.open(got);
            }
        }
    }
    answers.end()
}

// Takes the steps of a line in one session.
fn in_session<N: Session, R: Wait>(
    rt: &R,
    alloc: Global,
    clocks: Clocks<ListWorld>,
    air: Air,
    nodes: Vec<NodeAir>,
    world: &ListWorld,
    line: &[Section<'_>],
) -> (Clocks<ListWorld>, Air, Vec<NodeAir>, Result<u32, Fault>)
    requires parts { AreParts N.table N.world N.floor clocks air }
    requires nodes { All (λ n. (n.table ≡ N.table) × (n.world ≡ N.world)) nodes.items }
    requires world { N.world ≡ world.now }
    ensures parts { AreParts N.table N.world N.floor result.0 result.1 }
    ensures nodes { All (λ n. (n.table ≡ N.table) × (n.world ≡ N.world)) result.2.items }
{
    let floor = air.floor();
    let shared: Shared<ListWorld, N> = Shared::new(clocks, air);
    let mut team = Team::new(nodes);
    let ran = run_steps(rt, alloc, &shared, world, floor, &mut team, line);
    let nodes = team.into_nodes();
    let (clocks, air) = shared.into_parts();
    (clocks, air, nodes, ran)
}

impl Parts {
    /// The air of this world, in which nothing has happened yet.
    pub fn new(alloc: Global, world: ListWorld) -> Result<Parts, Fault> {
        let (clocks, air, nodes) = open_air(alloc, &world)?;
        Ok(Parts {
            world,
            clocks,
            air,
            nodes,
        })
    }

    /// Takes the steps of a line in a session of its own, and compares the answers. It gives the number of answers.
    pub fn go<R: Wait>(
        self,
        rt: &R,
        alloc: Global,
        line: &[Section<'_>],
    ) -> (Parts, Result<u32, Fault>) {
        let Parts {
            world,
            clocks,
            air,
            nodes,
        } = self;
        let (clocks, air, nodes, ran) = in_session::<Brand, R>(
            rt, alloc, clocks, air, nodes, &world, line,
        );
        let parts = Parts {
            world,
            clocks,
            air,
            nodes,
        };
        (parts, ran)
    }

    /// Cuts the record at a cycle. It is `Forbidden` where that would wait for ever, since a node is behind, and where
    /// the cycle is no floor.
    pub fn cut<R: Wait>(&mut self, rt: &R, floor: u64) -> Result<(), Fault> {
        if floor < self.air.floor() || floor > self.world.topo().limit() {
            return Err(Fault::Forbidden);
        }
        if self.nodes.iter().any(|n| n.clock() < floor) {
            return Err(Fault::Forbidden);
        }
        cut_when_passed(rt, &self.clocks, &mut self.air, floor);
        Ok(())
    }

    /// The record of the air.
    pub fn air(&self) -> &Air {
        &self.air
    }
}
