// A world of the air that is given by its lists.
ghost use Rattle.std.specs.Prelude.{◌≡◌};

use crate::laws::{ask_fault, send_fault};
use air_base::{Ask, Send};
use std::marker::Model;
use world_core::{Topo, World, WorldFault};

/// A world that is given by its lists.
#[derive(Drop)]
pub struct ListWorld {
    topo: Topo,
    sends: Vec<Send>,
    asks: Vec<Ask>,
}

impl Model for ListWorld {
    ghost use Rattle.world_core.specs.declared.world.WorldFacts.{WorldFacts};
    ghost use Rattle.world_core.specs.Lawful.{IsLawful};

    ghost Value = { WorldFacts };

    ghost view = { λ w. record { topo = w.topo; sends = w.sends.items; asks = w.asks.items } };

    ghost invariant = { λ w. IsLawful record { topo = w.topo; sends = w.sends.items; asks = w.asks.items } };
}

impl ListWorld {
    ghost use Rattle.std.specs.Prelude.{◌≡◌, ◌↔◌, IsOk, IfOk, IfErr};
    ghost use Rattle.world_core.specs.Lawful.{IsLawful, IsWorldFault};

    /// The world of these lists, in each of which a node's entries stand in order. It takes no memory. The first entry
    /// whose node or cycle is out of range, or that comes too early behind that node's entry before it (a send by less
    /// than the byte time, a sample by less than one cycle), is refused with its place, the sends first.
    pub fn new(topo: Topo, sends: Vec<Send>, asks: Vec<Ask>) -> Result<ListWorld, WorldFault>
        ensures ok { IsOk result ↔ IsLawful record { topo = topo; sends = sends.items; asks = asks.items } }
        ensures value { IfOk result (λ w. w ≡ record { topo = topo; sends = sends.items; asks = asks.items }) }
        ensures fault { IfErr result (IsWorldFault record { topo = topo; sends = sends.items; asks = asks.items }) }
    {
        // The call's clause says that the topology is lawful, which what follows rests on.
        let _lawful = topo.nodes();
        if let Some(place) = send_fault(&topo, &sends) {
            return Err(WorldFault::SendOrder { place });
        }
        if let Some(place) = ask_fault(&topo, &asks) {
            return Err(WorldFault::AskOrder { place });
        }
        Ok(ListWorld { topo, sends, asks })
    }

    /// All sends, as they were handed in.
    pub fn sends(&self) -> &[Send]
        ensures { result.now ≡ self.now.sends }
    {
        &self.sends
    }

    /// All samples, as they were handed in.
    pub fn asks(&self) -> &[Ask]
        ensures { result.now ≡ self.now.asks }
    {
        &self.asks
    }
}

impl World for ListWorld {
    ghost facts = { λ w. w };

    fn topo(&self) -> &Topo {
        &self.topo
    }
}
