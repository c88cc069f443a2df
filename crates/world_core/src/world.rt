// A world of the air: everything that its nodes send, and every cycle in which one samples.
ghost use Rattle.std.specs.Prelude.{◌≡◌};

use crate::Topo;
use air_base::{Ask, Send};
use std::collections::LinkedList;

/// What a world is, for contracts: its topology, all sends, and all samples. No value of it is made.
/// The order of different nodes' entries says nothing: a node's list is its entries, in order.
pub struct WorldFacts {
    /// The topology.
    pub topo: Topo,
    /// All sends of all nodes.
    pub sends: LinkedList<Send>,
    /// All samples of all nodes.
    pub asks: LinkedList<Ask>,
}

/// A world of the air. Its facts are what all claims on samples speak of; its laws are `IsLawful`: the sends of one
/// node lie at least a byte time apart, its samples rise strictly, and all of them lie inside the topology.
pub trait World {
    ghost use Rattle.std.specs.Prelude.{◌≡◌};
    ghost use Rattle.world_core.specs.declared.world.WorldFacts.{WorldFacts};
    ghost use Rattle.world_core.specs.Lawful.{IsLawful};

    ghost facts: { Self → WorldFacts };

    /// Its topology. Generic code learns the laws of the world by this call.
    fn topo(&self) -> &Topo
        ensures same { result.now ≡ (facts self.now).topo }
        ensures lawful { IsLawful (facts self.now) };
}
