// Two nodes' clock words with real threads: one node raises its clock through every cycle up to the limit, and the
// other looks at it all the while. Or so many calls of one kind on one thread.
ghost use Rattle.std.specs.Prelude.{◌≡◌, ◌≤◌, ◌<◌, []};

use crate::calls::{load_again, peek_again, raise_again, raise_through, take_turns, watch};
use crate::words::{Words, open};
use std::alloc::Global;
use std::sync::Wait;
use std::thread::{Threads, join};
use std::time::Clock;

// How many cycles the first node passes.
const CYCLES: u64 = 1_000_000;

// How long the first of two nodes that take turns waits for the second one's first turn, in milliseconds.
const PAUSE: u64 = 50;

// So many calls on one thread; of another name, none. What they give is answered, so that no call is left out.
fn repeat(words: Words, call: &str, count: u64) -> u64
    requires { CYCLES ≤ words.clocks.world.topo.limit }
{
    let Words {
        clocks,
        air,
        first,
        second: _second,
    } = words;
    match call {
        "load" => load_again(&clocks, air, 1, count),
        "peek" => peek_again(&clocks, first, 1, count),
        "raise" => raise_again(&clocks, first, CYCLES, count),
        _ => 0,
    }
}

// Where the first node's clock came to, and whether the second one saw it get there and never fall.
fn run<R: Threads + Sync>(rt: &R, words: Words) -> (u64, bool)
    requires { CYCLES ≤ words.clocks.world.topo.limit }
{
    let Words {
        clocks,
        air: _air,
        first,
        second,
    } = words;
    let shared = &clocks;
    join(
        rt,
        move || -> u64
            requires table { first.table ≡ shared.now.table }
            requires silent { first.world.sends ≡ [] }
            requires within { CYCLES ≤ first.world.topo.limit }
            requires start { first.clock ≡ 0 }
        { raise_through(shared, first, CYCLES) },
        move || -> bool
            requires table { second.table ≡ shared.now.table }
            requires node { 0 < second.world.topo.nodes }
        { watch(shared, second, 0, CYCLES) },
    )
}

/// What comes of a node that raises its clock through a million cycles, and one that looks at it, on two threads.
/// `None` where there was no memory.
pub fn on_threads<R: Threads + AllocGlobal + Sync>(rt: &R) -> Option<String> {
    let (raised, seen) = run(rt, open(rt.alloc(), CYCLES)?);
    format!(in rt.alloc(); "raised to {raised}, and seen to rise: {seen}").ok()
}

// Whether each of two nodes that take so many turns was woken each time.
fn are_woken<R: Threads + Wait + Clock + Sync>(rt: &R, words: Words, turns: u64) -> (bool, bool)
    requires { turns ≤ words.clocks.world.topo.limit }
{
    let Words {
        clocks,
        air: _air,
        first,
        second,
    } = words;
    let shared = &clocks;
    join(
        rt,
        move || -> bool
            requires table { first.table ≡ shared.now.table }
            requires node { 1 < first.world.topo.nodes }
            requires silent { first.world.sends ≡ [] }
            requires within { turns ≤ first.world.topo.limit }
            requires start { first.clock ≡ 0 }
        { take_turns(rt, shared, first, 1, turns, 0) },
        move || -> bool
            requires table { second.table ≡ shared.now.table }
            requires node { 0 < second.world.topo.nodes }
            requires silent { second.world.sends ≡ [] }
            requires within { turns ≤ second.world.topo.limit }
            requires start { second.clock ≡ 0 }
        { take_turns(rt, shared, second, 0, turns, PAUSE) },
    )
}

/// What comes of two nodes on two threads that wait for each other in each of so many cycles, where nobody else would
/// end a sleep before long. `None` where one did not sleep, or was not woken, or there was no memory.
pub fn in_turns<R: Threads + Wait + Clock + AllocGlobal + Sync>(
    rt: &R,
    turns: u64,
) -> Option<String> {
    if turns > CYCLES {
        return None;
    }
    let (first, second) = are_woken(rt, open(rt.alloc(), CYCLES)?, turns);
    if !first || !second {
        return None;
    }
    format!(in rt.alloc(); "woken in each of {turns} turns").ok()
}

/// What comes of so many calls `load`, `peek` or `raise` on one thread. `None` where there was no memory.
pub fn on_one(alloc: Global, call: &str, count: u64) -> Option<String> {
    let sum = repeat(open(alloc, CYCLES)?, call, count);
    format!(in alloc; "{sum}").ok()
}
