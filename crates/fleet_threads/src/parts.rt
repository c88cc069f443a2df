// A run between two epochs.
use crate::epoch::Epoch;
use crate::gate::Gate;
use crate::member::Member;
use crate::threads::run_all;
use neighbour_sync::{Air, Clocks, Session, Shared};
use node_runner::Scenario;
use std::sync::Wait;
use std::thread::Threads;

/// What goes from one epoch to the next: the clock words, the record, and the nodes in order.
pub struct Parts {
    pub clocks: Clocks<Scenario>,
    pub air: Air,
    pub members: Vec<Member>,
}

// By hand, so that an exit that lets go of them has one call to prove, and not one for each list in them.
impl Drop for Parts {
    fn drop(self) {
        let Parts {
            clocks: _,
            air: _,
            members: _,
        } = self;
    }
}

impl Parts {
    ghost use Rattle.std.specs.Prelude.{◌≡◌};
    ghost use Rattle.std.specs.List.{All};
    ghost use Rattle.neighbour_sync.specs.Parts.{AreParts};
    ghost use Rattle.fleet_threads.specs.Member.{IsBack, numbers};
    ghost use Rattle.fleet_threads.specs.Nodes.{AreBegun};

    /// One epoch in a session of its own, which is made, used and taken apart. The list is for nodes for which no
    /// thread is found.
    pub fn in_session<N: Session + Send + Sync, R: Threads + Wait + Sync, G: Gate + Sync>(
        self,
        epoch: &Epoch<'_, R, G>,
        waiting: Vec<Member>,
    ) -> Parts
        requires parts { AreParts N.table N.world N.floor self.clocks self.air }
        requires begun { AreBegun N.table N.world epoch.now.scenario.now N.floor epoch.now.end self.members waiting }
        ensures parts { AreParts N.table N.world N.floor result.clocks result.air }
        ensures members { All (IsBack N.table N.world epoch.now.scenario.now N.floor epoch.now.end) result.members.items }
        ensures numbers { numbers result.members.items ≡ numbers self.members.items }
    {
        let Parts {
            clocks,
            air,
            members,
        } = self;
        let shared: Shared<Scenario, N> = Shared::new(clocks, air);
        let members = run_all(&shared, epoch, members, waiting);
        let (clocks, air) = shared.into_parts();
        Parts {
            clocks,
            air,
            members,
        }
    }
}
