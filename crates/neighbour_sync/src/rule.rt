// The rule of the words, and the kinds of step.
use atomic_table::{Play, Split, TableRule};
use std::collections::LinkedList;
use std::snapshot::Snapshot;
use world_core::{World, WorldFacts};

/// What a seat knows: the air's, or a node's. No value of it is made. What the other kind of seat alone knows is 0,
/// false or empty.
pub struct View {
    /// The world whose clocks these are.
    pub world: WorldFacts,
    /// The clocks that the seat loaded, each with its node, in order.
    pub loads: LinkedList<(u64, u64)>,
    /// Whether it is the air's.
    pub is_air: bool,
    /// The air's: how many nodes have seats.
    pub made: u64,
    /// The air's: how many sends of each node are posted.
    pub sent: LinkedList<u64>,
    /// A node's: its number.
    pub number: u64,
    /// A node's: the cycle that it stored last in its clock word.
    pub clock: u64,
    /// A node's: how many of its sends it saw to be posted.
    pub told: u64,
    /// A node's: the values of the halt that it loaded, in order.
    pub halts: LinkedList<u64>,
    /// A node's: whether it has stored the halt.
    pub stopped: bool,
}

/// The rule. The key of the table is the world.
pub struct ClockRule;

impl<W: World> TableRule<(), View, Snapshot<W>> for ClockRule {
    ghost use Rattle.neighbour_sync.specs.Rule.{KeepsRule, air_view};

    ghost holds = { λ key. KeepsRule (W.facts key.value) };

    ghost first = { λ key. air_view (W.facts key.value) 0 };
}

/// The air's seat makes the seat of the next node.
pub struct NextNode;

impl Split<View> for NextNode {
    ghost use Rattle.neighbour_sync.specs.Steps.{with_seat, next_seat};

    ghost left = { with_seat };

    ghost right = { next_seat };
}

/// The air's seat loads a clock.
pub struct LoadClock;

impl Play<(), View> for LoadClock {
    ghost use Rattle.neighbour_sync.specs.Steps.{clock_loaded};

    ghost then = { clock_loaded };
}

/// A node's seat loads a clock.
pub struct PeekClock;

impl Play<(), View> for PeekClock {
    ghost use Rattle.neighbour_sync.specs.Steps.{clock_peeked};

    ghost then = { clock_peeked };
}

/// A node's seat stores its clock.
pub struct Raise;

impl Play<(), View> for Raise {
    ghost use Rattle.neighbour_sync.specs.Steps.{clock_raised};

    ghost then = { clock_raised };
}

/// The air's seat stores a number of posted sends that is higher by one.
pub struct StoreSent;

impl Play<(), View> for StoreSent {
    ghost use Rattle.neighbour_sync.specs.Steps.{sent_stored};

    ghost then = { sent_stored };
}

/// A node's seat loads the number of its posted sends.
pub struct SeeSent;

impl Play<(), View> for SeeSent {
    ghost use Rattle.neighbour_sync.specs.Steps.{sent_seen};

    ghost then = { sent_seen };
}

/// A node's seat lowers the want word of a node for which it waits, or clears its own.
pub struct Want;

impl Play<(), View> for Want {
    ghost use Rattle.neighbour_sync.specs.Steps.{want_left};

    ghost then = { want_left };
}

/// A node's seat stores the halt.
pub struct StoreHalt;

impl Play<(), View> for StoreHalt {
    ghost use Rattle.neighbour_sync.specs.Steps.{halt_stored};

    ghost then = { halt_stored };
}

/// A node's seat loads the halt.
pub struct LoadHalt;

impl Play<(), View> for LoadHalt {
    ghost use Rattle.neighbour_sync.specs.Steps.{halt_loaded};

    ghost then = { halt_loaded };
}
