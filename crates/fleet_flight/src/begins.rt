// Where a run begins.
use world_core::Topo;

/// What says of a run in which moment it begins. Of that moment nothing but the topology is looked at as the run goes on:
/// the rest is what contracts speak of.
pub trait Begins {
    ghost use Rattle.std.specs.Prelude.{◌≡◌};
    ghost use Rattle.world_core.specs.Topology.{IsTopology};
    ghost use Rattle.fleet_flight.specs.Origin.{Origin};

    ghost origin: { Self → Origin };

    /// The topology of the network.
    fn topo(&self) -> &Topo
        ensures value { result.now ≡ (origin self.now).topo }
        ensures sound { IsTopology (origin self.now).topo };
}
