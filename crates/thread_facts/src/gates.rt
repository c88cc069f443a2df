// Gates that hold a node at a turn until another one has come far enough, or refuse it its thread, and note what they
// are told.
use fleet_threads::Gate;
use std::sync::Wait;
use std::sync::atomic::{AtomicBool, AtomicU64, Ordering};
use std::thread;
use std::time::Duration;

// How often a gate that holds a node looks, at most: each millisecond, so for ten seconds at least. What it waits for
// comes in a few.
const LOOKS: u32 = 10_000;

// How often the gate that watches for a turn too early looks.
const WATCHED_LOOKS: u32 = 1_000_000;

// How many turns of a node are noted, from its turn 0 on.
const TURNS: usize = 4;

/// Which of their first turns nodes 0 and 1 were told to begin, and whether a gate gave up.
#[derive(Drop)]
pub struct Told {
    // node 0 first
    turns: [AtomicBool; 8],
    // how many nodes were told to begin their turn 0
    begun: AtomicU64,
    gave_up: AtomicBool,
    // what nobody changes, to sleep on
    still: AtomicU64,
}

impl Told {
    /// No turn was told.
    pub fn none() -> Self {
        Told {
            turns: [
                AtomicBool::new(false),
                AtomicBool::new(false),
                AtomicBool::new(false),
                AtomicBool::new(false),
                AtomicBool::new(false),
                AtomicBool::new(false),
                AtomicBool::new(false),
                AtomicBool::new(false),
            ],
            begun: AtomicU64::new(0),
            gave_up: AtomicBool::new(false),
            still: AtomicU64::new(0),
        }
    }

    fn flag(&self, node: u8, turn: u64) -> Option<&AtomicBool> {
        if turn >= TURNS as u64 {
            return None;
        }
        self.turns.get(usize::from(node) * TURNS + turn as usize)
    }

    fn note(&self, node: u8, turn: u64) {
        if turn == 0 {
            self.begun.fetch_add(1, Ordering::SeqCst);
        }
        if let Some(flag) = self.flag(node, turn) {
            flag.store(true, Ordering::SeqCst);
        }
    }

    /// Whether this node was told to begin this turn.
    pub fn has(&self, node: u8, turn: u64) -> bool {
        match self.flag(node, turn) {
            Some(flag) => flag.load(Ordering::SeqCst),
            None => false,
        }
    }

    /// Whether a gate looked as often as it may, in vain.
    pub fn gave_up(&self) -> bool {
        self.gave_up.load(Ordering::SeqCst)
    }

    // Sleeps for a millisecond. Whether the caller is to look again: no gate has given up.
    fn nap<R: Wait>(&self, rt: &R) -> bool {
        self.still.park_timeout(rt, 0, Duration::from_millis(1));
        !self.gave_up()
    }

    // Holds the caller until this node is told to begin this turn.
    fn hold_until<R: Wait>(&self, rt: &R, node: u8, turn: u64) {
        for _ in 0..LOOKS {
            if self.has(node, turn) || !self.nap(rt) {
                return;
            }
        }
        self.gave_up.store(true, Ordering::SeqCst);
    }

    // Holds the caller until so many nodes were told to begin their turn 0.
    fn hold_for<R: Wait>(&self, rt: &R, nodes: u64) {
        for _ in 0..LOOKS {
            if self.begun.load(Ordering::SeqCst) >= nodes || !self.nap(rt) {
                return;
            }
        }
        self.gave_up.store(true, Ordering::SeqCst);
    }
}

/// Holds each node at its turn 0 until those of all nodes are told: so all of them are under way at once.
#[derive(Drop)]
pub struct AllBegin<'t> {
    pub told: &'t Told,
    /// How many nodes there are.
    pub nodes: u64,
    /// The node that is refused its thread, if there is one of this number.
    pub refused: u8,
}

impl<'t> Gate for AllBegin<'t> {
    fn reached<R: Wait>(&self, rt: &R, node: u8, turn: u64) {
        self.told.note(node, turn);
        if turn == 0 {
            self.told.hold_for(rt, self.nodes);
        }
    }

    fn refuses(&self, node: u8) -> bool {
        node == self.refused
    }
}

/// Refuses each node its thread, and holds none.
#[derive(Drop)]
pub struct NoThread<'t> {
    pub told: &'t Told,
    /// Whether node 0 or 1 was told its turn 1 before both were told their turn 0.
    pub went_ahead: &'t AtomicBool,
}

impl<'t> Gate for NoThread<'t> {
    fn reached<R: Wait>(&self, rt: &R, node: u8, turn: u64) {
        // It waits for nobody.
        let _ = rt;
        self.told.note(node, turn);
        if turn == 1 && !(self.told.has(0, 0) && self.told.has(1, 0)) {
            self.went_ahead.store(true, Ordering::SeqCst);
        }
    }

    fn refuses(&self, node: u8) -> bool {
        let _ = node;
        true
    }
}

/// Holds node 0 at its turn 0 until node 1's turn 1 is told, and then for a while: node 1's turn 2 comes behind a
/// sample for which it waits for node 0, so it is not to be told meanwhile.
#[derive(Drop)]
pub struct FirstIsLate<'t> {
    pub told: &'t Told,
    /// Whether node 1 went on without node 0.
    pub went_on: &'t AtomicBool,
}

impl<'t> Gate for FirstIsLate<'t> {
    fn reached<R: Wait>(&self, rt: &R, node: u8, turn: u64) {
        self.told.note(node, turn);
        if turn == 0 && node == 0 {
            self.told.hold_until(rt, 1, 1);
            for _ in 0..WATCHED_LOOKS {
                if self.told.has(1, 2) {
                    self.went_on.store(true, Ordering::SeqCst);
                    return;
                }
                thread::yield_now();
            }
        }
    }
}

/// Holds node 1 at its turn 0 until node 0's turn 3 is told: node 0 hears nobody, so it is to get there alone.
#[derive(Drop)]
pub struct SecondIsLate<'t>(pub &'t Told);

impl<'t> Gate for SecondIsLate<'t> {
    fn reached<R: Wait>(&self, rt: &R, node: u8, turn: u64) {
        self.0.note(node, turn);
        if turn == 0 && node == 1 {
            self.0.hold_until(rt, 0, 3);
        }
    }
}

/// Holds nobody, and notes the last turn of a lone node.
#[derive(Drop)]
pub struct LastTurn<'t>(pub &'t AtomicU64);

impl<'t> Gate for LastTurn<'t> {
    fn reached<R: Wait>(&self, rt: &R, node: u8, turn: u64) {
        // It waits for nobody.
        let _ = rt;
        let _ = node;
        self.0.store(turn, Ordering::SeqCst);
    }
}

/// Holds nobody, refuses nothing, and counts what it is told and asked.
#[derive(Drop)]
pub struct Counted<'t> {
    /// How many turns were told.
    pub turns: &'t AtomicU64,
    /// For how many nodes a thread was to be begun.
    pub threads: &'t AtomicU64,
}

impl<'t> Gate for Counted<'t> {
    fn reached<R: Wait>(&self, rt: &R, node: u8, turn: u64) {
        // It waits for nobody.
        let _ = rt;
        let _ = (node, turn);
        self.turns.fetch_add(1, Ordering::SeqCst);
    }

    fn refuses(&self, node: u8) -> bool {
        let _ = node;
        self.threads.fetch_add(1, Ordering::SeqCst);
        false
    }
}
