// The words, and the steps on them.
ghost use Rattle.std.specs.Prelude.{◌≡◌};
ghost use mathlib.Core.Option.{none};
ghost use Rattle.atomic_table.specs.Table.{step};
ghost use Rattle.neighbour_sync.specs.Asks.{MayLoad, MayStore, MayLower};

use crate::layout::{clock_word, halt_word, sent_word, want_word};
use crate::rule::{
    ClockRule, LoadClock, LoadHalt, PeekClock, Raise, SeeSent, StoreHalt, StoreSent, View, Want,
};
use crate::seats::{AirSeat, NodeSeat};
use atomic_table::{Play, Seat, Table};
use std::alloc::Global;
use std::marker::Model;
use std::snapshot::Snapshot;
use std::sync::Wait;
use std::time::Duration;
use world_core::World;

// What a want word shows while nobody waits: a cycle that no clock passes.
const NOBODY: u64 = u64::MAX;

pub(crate) type Words<W> = Table<(), View, Snapshot<W>, ClockRule, Global>;

/// The clock words of the nodes of a world, which threads share by reference. Each call with a seat is one step, and
/// `raise` a second one where it wakes somebody: it waits for no one, but for `sleep_until_past`, and takes no memory,
/// and the seat is of the same table, lent by whoever has it.
///
/// *Why no wake is lost.* All steps on the words, loads too, are sequentially consistent: they stand in one order, in
/// which each thread's stand as it takes them. Who is about to sleep lowers the want word of the node for which it
/// waits and then looks at that node's clock (`sleep_until_past`). The node stores its clock and then looks at its want
/// word (`raise`). So where the look at the clock comes before the store, the want stands in the word before the node
/// looks there. If the node has passed it, it clears the word, and wakes all who sleep there behind that. A sleep
/// begins only while the word still shows what it showed with this want in it, and the system compares and goes to
/// sleep in one step, in which no wake falls: where the word was cleared before, the sleep ends at once, and where it
/// is cleared later, the wake behind that finds it. A want that is cleared unseen, or that was not passed yet, is not
/// lost either: its sleep ends the same way, and it is put there anew. Where another has lowered the word meanwhile,
/// the sleep ends at once too, or begins at a want that is no higher than its own, and so is passed no later. (The
/// system compares the low half of the word. The wants of one epoch lie closer than that, and one of an earlier epoch
/// is below the clock, so the node's next raise clears it; a want whose low half is that of `NOBODY`, one in each
/// 4,294,967,296 cycles, could sleep for its longest time.)
pub struct Clocks<W: World> {
    table: Words<W>,
    nodes: u8,
}

// By hand, so that an exit that lets go of one, here and in the crates above, has one call to prove.
impl<W: World> Drop for Clocks<W> {
    fn drop(self) {
        let Clocks { table: _, nodes: _ } = self;
    }
}

impl<W: World> Model for Clocks<W> {
    ghost use Rattle.neighbour_sync.specs.Seats.{ClocksFacts};
    ghost use Rattle.neighbour_sync.specs.Inside.{IsLaid};

    ghost Value = { ClocksFacts };

    ghost view = { λ c. record { table = c.table.shared.table_id; world = W.facts c.table.shared.key.value } };

    ghost invariant = { λ c. IsLaid c.table.shared.table_id.words c.nodes (W.facts c.table.shared.key.value) };
}

// Loads a word by a step of this kind.
fn get<W: World, M: Play<(), View>>(words: &Words<W>, seat: &mut Seat<(), View>, word: usize) -> u64
    requires { MayLoad (W.facts words.now.shared.key.value) words.now.shared.table_id seat.old.table_id seat.old.id seat.old.me word M.then }
    ensures { (seat.new.table_id ≡ seat.old.table_id) × (seat.new.id ≡ seat.old.id) × M.then (step words.now.shared.table_id.slots word 0 0 none) seat.old.me result seat.new.me }
{
    words.shared.load::<M>(seat, word)
}

// Lowers a word to this number, where it is higher, by a step of this kind. What it showed before.
fn lower<W: World, M: Play<(), View>>(
    words: &Words<W>,
    seat: &mut Seat<(), View>,
    word: usize,
    new: u64,
) -> u64
    requires { MayLower (W.facts words.now.shared.key.value) words.now.shared.table_id seat.old.table_id seat.old.id seat.old.me word new M.then }
    ensures { (seat.new.table_id ≡ seat.old.table_id) × (seat.new.id ≡ seat.old.id) × M.then (step words.now.shared.table_id.slots word new 0 none) seat.old.me result seat.new.me }
{
    words.shared.fetch_min::<M>(seat, word, new)
}

// Stores a number in a word by a step of this kind.
fn put<W: World, M: Play<(), View>>(
    words: &Words<W>,
    seat: &mut Seat<(), View>,
    word: usize,
    new: u64,
)
    requires { MayStore (W.facts words.now.shared.key.value) words.now.shared.table_id seat.old.table_id seat.old.id seat.old.me word new M.then }
    ensures { (seat.new.table_id ≡ seat.old.table_id) × (seat.new.id ≡ seat.old.id) × M.then (step words.now.shared.table_id.slots word new 0 none) seat.old.me new seat.new.me }
{
    words.shared.store::<M>(seat, word, new);
}

impl<W: World> Clocks<W> {
    ghost use Rattle.std.specs.Prelude.{◌≡◌, ◌≤◌, ◌<◌, length};
    ghost use Rattle.world_core.specs.Sends.{sends_of, sends_below};
    ghost use Rattle.world_core.specs.Posted.{sent_of};
    ghost use Rattle.neighbour_sync.specs.Inside.{IsLaid};
    ghost use Rattle.neighbour_sync.specs.Seats.{air_loaded, air_counted, node_peeked, node_raised, node_told, node_stopped, node_asked};

    // The words of this table, for so many nodes.
    pub(crate) fn of(table: Words<W>, nodes: u8) -> Clocks<W>
        requires { IsLaid table.shared.table_id.words nodes (W.facts table.shared.key.value) }
        ensures table { result.table ≡ table.shared.table_id }
        ensures world { result.world ≡ W.facts table.shared.key.value }
    {
        Clocks { table, nodes }
    }

    // Stores the clock of the seat's node.
    fn store_clock(&self, seat: &mut NodeSeat, clock: u64)
        requires table { seat.old.table ≡ self.now.table }
        requires rises { seat.old.clock ≤ clock }
        requires within { clock ≤ seat.old.world.topo.limit }
        requires told { sends_below seat.old.world.sends seat.old.number clock ≤ seat.old.told }
        ensures { seat.new ≡ node_raised seat.old clock }
    {
        let word = clock_word(seat.number());
        put::<_, Raise>(&self.table, &mut seat.seat, word, clock);
        seat.clock = clock;
    }

    // Wakes those who sleep until the clock of the seat's node has passed a cycle, if it has passed the least of those
    // cycles. While it has not, this is one load. One who wants a later cycle is woken with them, and sleeps again.
    fn serve(&self, seat: &mut NodeSeat)
        requires { seat.old.table ≡ self.now.table }
        ensures { seat.new ≡ seat.old }
    {
        let word = want_word(self.nodes, seat.number());
        if self.table.shared.peek(word) < seat.clock {
            put::<_, Want>(&self.table, &mut seat.seat, word, NOBODY);
            self.table.shared.wake_all(word);
        }
    }

    /// Raises the clock of the seat's node to this cycle, so that others need not wait for the node's sends below it,
    /// and wakes those who sleep until it is there (`sleep_until_past`). Where the clock stands there already it does
    /// nothing. The clock may not fall or pass the limit, and the seat has to have seen that all its sends below it are
    /// posted.
    pub fn raise(&self, seat: &mut NodeSeat, clock: u64)
        requires table { seat.old.table ≡ self.now.table }
        requires rises { seat.old.clock ≤ clock }
        requires within { clock ≤ seat.old.world.topo.limit }
        requires told { sends_below seat.old.world.sends seat.old.number clock ≤ seat.old.told }
        ensures { seat.new ≡ node_raised seat.old clock }
    {
        if seat.clock < clock {
            self.store_clock(seat, clock);
            self.serve(seat);
        }
    }

    /// The clock of a node, a cycle: all sends of the node below it are posted, and counted by this seat.
    pub fn load_clock(&self, seat: &mut AirSeat, node: u8) -> u64
        requires table { seat.old.table ≡ self.now.table }
        requires node { node < seat.old.world.topo.nodes }
        ensures counted { sends_below seat.old.world.sends node result ≤ sent_of seat.old.sent node }
        ensures seat { seat.new ≡ air_loaded seat.old node result }
    {
        get::<_, LoadClock>(&self.table, &mut seat.seat, clock_word(node))
    }

    /// A first look at the clock of a node, to see whether it is worth while to ask the record. Nothing follows from
    /// it: the seat of a node does not know what is posted of another.
    pub fn peek_clock(&self, seat: &mut NodeSeat, node: u8) -> u64
        requires table { seat.old.table ≡ self.now.table }
        requires node { node < seat.old.world.topo.nodes }
        ensures { seat.new ≡ node_peeked seat.old node result }
    {
        get::<_, PeekClock>(&self.table, &mut seat.seat, clock_word(node))
    }

    /// Counts one more posted send of a node, which is to have a further one. The send itself is to stand in the record
    /// before anyone may hear it: this is for whoever keeps the record.
    pub fn store_sent(&self, seat: &mut AirSeat, node: u8)
        requires table { seat.old.table ≡ self.now.table }
        requires node { node < seat.old.world.topo.nodes }
        requires further { sent_of seat.old.sent node < length (sends_of node seat.old.world.sends) }
        ensures { seat.new ≡ air_counted seat.old node }
    {
        let word = sent_word(self.nodes, node);
        let count = seat.sent(node) + 1;
        put::<_, StoreSent>(&self.table, &mut seat.seat, word, count);
        seat.sent[usize::from(node)] = count;
    }

    // Says that somebody wants the clock of a node to pass this cycle. The least cycle that anybody wants it to pass.
    fn want(&self, seat: &mut NodeSeat, node: u8, cycle: u64) -> u64
        requires table { seat.old.table ≡ self.now.table }
        requires node { node < self.now.world.topo.nodes }
        ensures { seat.new ≡ seat.old }
    {
        let word = want_word(self.nodes, node);
        lower::<_, Want>(&self.table, &mut seat.seat, word, cycle).min(cycle)
    }

    /// Sleeps until the clock of a node has passed this cycle, and for so many milliseconds at most. It may return at any
    /// time, as it does where there is no such node, and nothing follows from it.
    pub fn sleep_until_past<R: Wait>(
        &self,
        rt: &R,
        seat: &mut NodeSeat,
        node: u8,
        cycle: u64,
        longest: u64,
    )
        requires { seat.old.table ≡ self.now.table }
        ensures { seat.new ≡ seat.old }
    {
        if node >= self.nodes {
            return;
        }
        let wanted = self.want(seat, node, cycle);
        if self.table.shared.peek(clock_word(node)) <= cycle {
            let low_half = (wanted & u64::from(u32::MAX)) as u32;
            let longest = Duration::from_millis(longest);
            self.table
                .shared
                .park_timeout(rt, want_word(self.nodes, node), low_half, longest);
        }
    }

    /// How many sends of the seat's node are posted, which the seat then knows. The number never falls.
    pub fn see_sent(&self, seat: &mut NodeSeat) -> u64
        requires { seat.old.table ≡ self.now.table }
        ensures rises { seat.old.told ≤ result }
        ensures seat { seat.new ≡ node_told seat.old result }
    {
        let word = sent_word(self.nodes, seat.number());
        let count = get::<_, SeeSent>(&self.table, &mut seat.seat, word);
        seat.told = count;
        count
    }

    /// Tells all nodes to halt, for good.
    pub fn halt(&self, seat: &mut NodeSeat)
        requires { seat.old.table ≡ self.now.table }
        ensures { seat.new ≡ node_stopped seat.old }
    {
        put::<_, StoreHalt>(&self.table, &mut seat.seat, halt_word(self.nodes), 1);
    }

    /// Whether a node had told all nodes to halt when this call looked.
    pub fn halted(&self, seat: &mut NodeSeat) -> bool
        requires { seat.old.table ≡ self.now.table }
        ensures { seat.new ≡ node_asked seat.old result }
    {
        let found = get::<_, LoadHalt>(&self.table, &mut seat.seat, halt_word(self.nodes));
        found == 1
    }
}
