// The sums over the rows of a node, taken from the last one back.
ghost use Rattle.std.specs.Prelude.{◌≡◌, ◌+◌, ◌-◌, ◌*◌, ◌^◌, ◌<◌, ◌≤◌, IfOk};
ghost use Rattle.std.specs.List.{All, filter};
ghost use Rattle.node_monitors.specs.Spent.{is_used};
ghost use Rattle.node_monitors.specs.Sums.{executed, executing, halted, is_free, is_within, newly_owned, no_rows, since, told, took, vectored};
ghost use Rattle.node_monitors.specs.Taken.{HasRoom, IsTaken, IsWithin};
ghost use Rattle.node_monitors.specs.declared.spent.TheConstants.{AWAKE_CHARGE, SENT_CHARGE};

use crate::spent::{AWAKE_CHARGE, SENT_CHARGE, Spent, add, unused_table, used};
use node_core::{Kind, Row};
use std::alloc::{AllocError, Global};
use std::marker::Model;

// The opcode word of SLEEP.
const SLEEP: u16 = 0x9588;

// One more than the word of an instruction or a vector, and 0 of any other row.
fn words_to(kind: Kind) -> usize
    ensures within { IsWithin result kind }
    ensures most { result ≤ 65536 }
{
    match kind {
        Kind::Instr { pc, .. } => usize::from(pc) + 1,
        Kind::Enter { vector, .. } => usize::from(vector) + 1,
        _ => 0,
    }
}

// How many words of flash the rows speak of: one more than their highest.
fn words_of(rows: &[Row]) -> usize
    ensures within { All (λ r. IsWithin result r.kind) rows.now }
    ensures most { result ≤ 65536 }
{
    let mut words = 0;
    for row in rows {
        words = words_to(row.kind).max(words);
    }
    words
}

/// The sums over the rows that were taken.
#[derive(Drop)]
pub struct Ledger {
    node: u8,
    window: (u64, u64),
    // How many words the tables have.
    words: usize,
    // The cycles of the window below this one have no owner yet.
    free: u64,
    // What was spent at each of these words, and at each vector.
    at: Vec<Spent>,
    entered: Vec<Spent>,
    // The cycles of both tables.
    awake: u64,
    asleep: u64,
    stopped: u64,
    // The bytes sent in the window.
    sent: u64,
}

impl Model for Ledger {
    ghost use Rattle.node_monitors.specs.Sums.{Sums};

    ghost Value = { Sums };

    ghost view = { λ l. record { node = l.node; window = l.window; words = l.words; free = l.free; at = l.at.items; entered = l.entered.items; awake = l.awake; asleep = l.asleep; stopped = l.stopped; sent = l.sent } };
}

impl Ledger {
    // No row was taken.
    fn new(alloc: Global, node: u8, window: (u64, u64), words: usize) -> Result<Ledger, AllocError>
        requires { words ≤ 65536 }
        ensures empty { IfOk result (λ l. l ≡ no_rows node window words) }
        ensures narrow { window.1 < 2 ^ 64 }
    {
        let at = unused_table(alloc, words)?;
        let entered = unused_table(alloc, words)?;
        Ok(Ledger {
            node,
            window,
            words,
            free: window.0.max(window.1),
            at,
            entered,
            awake: 0,
            asleep: 0,
            stopped: 0,
            sent: 0,
        })
    }

    // From where on a row of the cycle `cycle` has the cycles that are free.
    fn since(&self, cycle: u64) -> u64
        ensures value { result ≡ since cycle self.now }
        ensures most { result ≤ self.now.free }
    {
        cycle.max(self.window.0).min(self.free)
    }

    // How many these are.
    fn newly_owned(&self, cycle: u64) -> u64
        ensures { result ≡ newly_owned cycle self.now }
    {
        self.free - self.since(cycle)
    }

    // Gives these cycles to the row, and answers how many they are.
    fn own(&mut self, cycle: u64) -> u64
        ensures owned { result ≡ newly_owned cycle self.old }
        ensures after { self.new ≡ record self.old { free = since cycle self.old } }
    {
        let owned = self.newly_owned(cycle);
        self.free = self.since(cycle);
        owned
    }

    // Whether a cycle of the window is free.
    fn is_free(&self, cycle: u64) -> bool
        ensures { result ≡ is_free cycle self.now }
    {
        self.window.0 <= cycle && cycle < self.free
    }

    // How many of its cycles an instruction executes: all, but SLEEP its own alone.
    fn executing(&self, cycle: u64, word: u16) -> u64
        ensures value { result ≡ executing cycle word self.now }
        ensures most { result ≤ newly_owned cycle self.now }
    {
        if word == SLEEP {
            u64::from(self.is_free(cycle))
        } else {
            self.newly_owned(cycle)
        }
    }
    // An instruction was executed.
    fn execute(&mut self, cycle: u64, pc: u16, word: u16)
        requires room { HasRoom self.old }
        requires within { pc < self.old.words }
        ensures { self.new ≡ executed cycle pc word self.old }
    {
        let executed = self.executing(cycle, word);
        let owned = self.own(cycle);
        add(&mut self.at, pc, executed);
        self.awake += executed;
        self.asleep += owned - executed;
    }

    // An interrupt was entered.
    fn enter(&mut self, cycle: u64, vector: u16)
        requires room { HasRoom self.old }
        requires within { vector < self.old.words }
        ensures { self.new ≡ vectored cycle vector self.old }
    {
        let owned = self.own(cycle);
        add(&mut self.entered, vector, owned);
        self.awake += owned;
    }

    // The node stopped.
    fn stop(&mut self, cycle: u64)
        requires { HasRoom self.old }
        ensures { self.new ≡ halted cycle self.old }
    {
        let owned = self.own(cycle);
        self.stopped += owned;
    }

    // The radio sent a byte.
    fn tell(&mut self, cycle: u64)
        requires { HasRoom self.old }
        ensures { self.new ≡ told cycle self.old }
    {
        if self.window.0 <= cycle && cycle < self.window.1 {
            self.sent += 1;
        }
    }

    // Takes the row before those that were taken; rows of other nodes and of other kinds are passed over.
    fn take(&mut self, row: &Row)
        requires room { HasRoom self.old }
        requires within { IsWithin self.old.words row.now.kind }
        ensures { self.new ≡ took row.now self.old }
    {
        if row.node == self.node {
            match row.kind {
                Kind::Instr { pc, word, .. } => self.execute(row.cycle, pc, word),
                Kind::Enter { vector, .. } => self.enter(row.cycle, vector),
                Kind::Stop { .. } => self.stop(row.cycle),
                Kind::Sent { .. } => self.tell(row.cycle),
                Kind::Serial { .. } | Kind::Heard { .. } | Kind::End { .. } => {}
            }
        }
    }

    /// The sums over the rows of the node `node` among `rows`.
    pub fn of(
        alloc: Global,
        node: u8,
        window: (u64, u64),
        rows: &[Row],
    ) -> Result<Ledger, AllocError>
        ensures node { IfOk result (λ l. l.node ≡ node) }
        ensures window { IfOk result (λ l. l.window ≡ window) }
        ensures taken { IfOk result (IsTaken rows.now) }
        ensures within { IfOk result (λ l. All (λ r. IsWithin l.words r.kind) rows.now) }
        ensures words { IfOk result (λ l. l.words ≤ 65536) }
    {
        let words = words_of(rows);
        let mut ledger = Ledger::new(alloc, node, window, words)?;
        for place in (0..rows.len()).rev() {
            ledger.take(&rows[place]);
        }
        Ok(ledger)
    }

    /// The cycles of the window that have no owner.
    pub fn lead(&self) -> u64
        ensures { result ≡ self.now.free - self.now.window.0 }
    {
        self.free.saturating_sub(self.window.0)
    }

    /// The instructions that were executed, in rising order of address.
    pub fn at(&self, alloc: Global) -> Result<Vec<Spent>, AllocError>
        ensures { IfOk result (λ v. v.items ≡ filter is_used self.now.at) }
    {
        used(alloc, &self.at)
    }

    /// The vectors that were entered, in rising order.
    pub fn entered(&self, alloc: Global) -> Result<Vec<Spent>, AllocError>
        ensures { IfOk result (λ v. v.items ≡ filter is_used self.now.entered) }
    {
        used(alloc, &self.entered)
    }

    /// The cycles of sleep.
    pub fn asleep(&self) -> u64
        ensures { result ≡ self.now.asleep }
    {
        self.asleep
    }

    /// The cycles after the stop.
    pub fn stopped(&self) -> u64
        ensures { result ≡ self.now.stopped }
    {
        self.stopped
    }

    /// The charge in its units: 8 for a cycle awake, 1 for a cycle of sleep, 512 for a byte sent.
    pub fn charge(&self) -> u64
        requires { AWAKE_CHARGE * self.now.awake + self.now.asleep + SENT_CHARGE * self.now.sent < 2 ^ 64 }
        ensures { result ≡ AWAKE_CHARGE * self.now.awake + self.now.asleep + SENT_CHARGE * self.now.sent }
    {
        AWAKE_CHARGE * self.awake + self.asleep + SENT_CHARGE * self.sent
    }
}
