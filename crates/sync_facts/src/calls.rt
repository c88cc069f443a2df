// Many steps on the words, one after another.
ghost use Rattle.std.specs.Prelude.{◌≡◌, ◌≤◌, ◌<◌, []};

use list_world::ListWorld;
use neighbour_sync::{AirSeat, Clocks, NodeSeat};
use std::sync::Wait;
use std::thread;
use std::time::{Clock, Duration, Instant};

// How long a node sleeps that nobody wakes, in milliseconds.
const LONGEST_SLEEP: u64 = 20_000;

// Who waits for so many seconds was not woken. A wake takes some microseconds.
const LATE: u64 = 10;

// Who looks so often does not sleep. One who is woken looks once more, or twice.
const LOOKS: u64 = 1_000;

#[tactic(auto, using(crate::proofs::Silent::none_below))]
/// Raises the clock of a silent node through each cycle up to the last, and answers where it then stands.
pub fn raise_through(clocks: &Clocks<ListWorld>, mut seat: NodeSeat, last: u64) -> u64
    requires table { seat.table ≡ clocks.now.table }
    requires silent { seat.world.sends ≡ [] }
    requires within { last ≤ seat.world.topo.limit }
    requires start { seat.clock ≡ 0 }
    ensures { result ≡ last }
{
    for passed in 0..last {
        clocks.raise(&mut seat, passed + 1);
    }
    seat.clock()
}

/// Looks at the clock of a node until it stands at this cycle, and answers whether it never fell.
pub fn watch(clocks: &Clocks<ListWorld>, mut seat: NodeSeat, node: u8, last: u64) -> bool
    requires table { seat.table ≡ clocks.now.table }
    requires node { node < seat.world.topo.nodes }
{
    let mut seen = 0;
    for _ in 0..u64::MAX {
        let clock = clocks.peek_clock(&mut seat, node);
        if clock < seen {
            return false;
        }
        if clock >= last {
            return true;
        }
        seen = clock;
    }
    false
}

/// Whether this is not so long ago that somebody was not woken.
pub fn is_soon<R: Clock>(rt: &R, begun: Instant) -> bool {
    match begun.elapsed(rt) {
        Ok(passed) => passed.as_secs() < LATE,
        Err(_) => false,
    }
}

// Waits until the clock of a node is past this cycle, asleep between its looks. Whether that was soon, and took few looks.
fn is_soon_past<R: Wait + Clock>(
    rt: &R,
    clocks: &Clocks<ListWorld>,
    seat: &mut NodeSeat,
    node: u8,
    cycle: u64,
) -> bool
    requires table { seat.old.table ≡ clocks.now.table }
    requires node { node < seat.old.world.topo.nodes }
    ensures same { (seat.new.table ≡ seat.old.table) × (seat.new.world ≡ seat.old.world) × (seat.new.clock ≡ seat.old.clock) }
{
    let Ok(begun) = Instant::now(rt) else {
        return false;
    };
    for _ in 0..LOOKS {
        if clocks.peek_clock(seat, node) > cycle {
            return is_soon(rt, begun);
        }
        if !is_soon(rt, begun) {
            return false;
        }
        clocks.sleep_until_past(rt, seat, node, cycle, LONGEST_SLEEP);
    }
    false
}

#[tactic(auto, using(crate::proofs::Silent::none_below))]
/// Raises the clock of a silent node by a cycle, and waits until that of another one is as far, so often, behind a pause
/// of so many milliseconds; and answers whether it slept each time until it was woken.
pub fn take_turns<R: Wait + Clock>(
    rt: &R,
    clocks: &Clocks<ListWorld>,
    mut seat: NodeSeat,
    other: u8,
    turns: u64,
    pause: u64,
) -> bool
    requires table { seat.table ≡ clocks.now.table }
    requires node { other < seat.world.topo.nodes }
    requires silent { seat.world.sends ≡ [] }
    requires within { turns ≤ seat.world.topo.limit }
    requires start { seat.clock ≡ 0 }
{
    thread::sleep(rt, Duration::from_millis(pause));
    for passed in 0..turns {
        clocks.raise(&mut seat, passed + 1);
        if !is_soon_past(rt, clocks, &mut seat, other, passed) {
            return false;
        }
    }
    true
}

/// Loads the clock of a node so often through the air's seat, and answers the sum.
pub fn load_again(clocks: &Clocks<ListWorld>, mut seat: AirSeat, node: u8, count: u64) -> u64
    requires table { seat.table ≡ clocks.now.table }
    requires node { node < seat.world.topo.nodes }
{
    let mut sum = 0u64;
    for _ in 0..count {
        sum = sum.wrapping_add(clocks.load_clock(&mut seat, node));
    }
    sum
}

/// Looks at the clock of a node so often, and answers the sum.
pub fn peek_again(clocks: &Clocks<ListWorld>, mut seat: NodeSeat, node: u8, count: u64) -> u64
    requires table { seat.table ≡ clocks.now.table }
    requires node { node < seat.world.topo.nodes }
{
    let mut sum = 0u64;
    for _ in 0..count {
        sum = sum.wrapping_add(clocks.peek_clock(&mut seat, node));
    }
    sum
}

#[tactic(auto, using(crate::proofs::Silent::none_below))]
/// Raises the clock of a silent node so often, cycle by cycle and then at the last again and again, and answers where
/// it then stands.
pub fn raise_again(clocks: &Clocks<ListWorld>, mut seat: NodeSeat, last: u64, count: u64) -> u64
    requires table { seat.table ≡ clocks.now.table }
    requires silent { seat.world.sends ≡ [] }
    requires within { last ≤ seat.world.topo.limit }
    requires start { seat.clock ≡ 0 }
{
    for turn in 0..count {
        clocks.raise(&mut seat, turn.min(last));
    }
    seat.clock()
}
