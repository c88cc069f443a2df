// The sums over the rows of a node, taken as they come.
ghost use Rattle.std.specs.Prelude.{◌≡◌, ◌+◌, ◌-◌, ◌*◌, ◌^◌, ◌<◌, ◌≤◌, length, IfOk, OnOk};
ghost use Rattle.node_monitors.specs.Tally.{charge_of, ended, executes, followed, grown, shared, tallied, told, untallied, with_row};
ghost use Rattle.node_monitors.specs.declared.spent.TheConstants.{AWAKE_CHARGE, SENT_CHARGE};

use crate::needed::matters;
use crate::profile::Profile;
use crate::spent::{AWAKE_CHARGE, SENT_CHARGE, Spent, used};
use avr_base::NoMemory;
use node_core::{Kind, Row};
use std::alloc::{AllocError, Global};
use std::marker::Model;

// The opcode word of SLEEP.
const SLEEP: u16 = 0x9588;

// Makes a table as long as `words` at least.
#[tactic(auto, unfolding(crate::specs::Tally::grown))]
fn grow(slots: &mut Vec<Spent>, words: usize) -> Result<(), AllocError>
    requires { words ≤ 65536 }
    ensures grown { OnOk result (slots.new.items ≡ grown words slots.old.items) }
    ensures most { length slots.old.items ≤ 65536 → length slots.new.items ≤ 65536 }
{
    for word in slots.len()..words {
        slots.push(Spent {
            word: word as u16,
            count: 0,
            cycles: 0,
        })?;
    }
    Ok(())
}

// One row more at a word, and its cycles.
#[tactic(auto, unfolding(crate::specs::Tally::with_row))]
fn count(slots: &mut Vec<Spent>, word: u16, cycles: u64) -> Result<(), AllocError>
    ensures row { OnOk result (slots.new.items ≡ with_row word cycles slots.old.items) }
    ensures most { length slots.old.items ≤ 65536 → length slots.new.items ≤ 65536 }
{
    let place = usize::from(word);
    grow(slots, place + 1)?;
    let slot = &mut slots[place];
    slot.count = slot.count.saturating_add(1);
    slot.cycles = slot.cycles.saturating_add(cycles);
    Ok(())
}

/// The sums over the rows of one node that were taken, in order of cycle. None is kept but the last: what it has is known
/// once the next one comes. So the memory does not grow with the rows, but with the highest word of flash that they name.
#[derive(Drop)]
pub struct Tally {
    node: u8,
    window: (u64, u64),
    // The row that has the cycles from `done` on.
    last: Option<Row>,
    // The cycles of the window below this one are shared out.
    done: u64,
    lead: u64,
    // What was spent at each word, and at each vector, without the last row.
    at: Vec<Spent>,
    entered: Vec<Spent>,
    asleep: u64,
    stopped: u64,
    // The bytes sent in the window.
    sent: u64,
}

impl Model for Tally {
    ghost use Rattle.std.specs.Prelude.{◌≤◌, length};
    ghost use Rattle.node_monitors.specs.Tally.{TallyOf};

    ghost Value = { TallyOf };

    ghost view = { λ t. record { node = t.node; window = t.window; last = t.last; done = t.done; lead = t.lead; at = t.at.items; entered = t.entered.items; asleep = t.asleep; stopped = t.stopped; sent = t.sent } };

    ghost invariant = { λ t. (length t.at.items ≤ 65536) × (length t.entered.items ≤ 65536) };
}

impl Tally {
    /// Of the node `node` over the cycles from `window.0` on, below `window.1`. No row was taken.
    pub fn new(alloc: Global, node: u8, window: (u64, u64)) -> Tally
        ensures { result ≡ untallied node window }
    {
        Tally {
            node,
            window,
            last: None,
            done: window.0,
            lead: 0,
            at: Vec::new(alloc),
            entered: Vec::new(alloc),
            asleep: 0,
            stopped: 0,
            sent: 0,
        }
    }

    /// The number of the node.
    pub fn node(&self) -> u8
        ensures { result ≡ self.now.node }
    {
        self.node
    }

    // How many of the cycles that are shared out up to `to` an instruction executes: all, but SLEEP its own alone.
    fn executes(&self, cycle: u64, word: u16, to: u64) -> u64
        ensures value { result ≡ executes cycle word to self.now }
        ensures most { result ≤ to - self.now.done }
    {
        if word == SLEEP {
            u64::from(self.done <= cycle && cycle < to)
        } else {
            to.saturating_sub(self.done)
        }
    }

    // The cycles below `to` go to the last row.
    fn share(&mut self, to: u64) -> Result<(), AllocError>
        ensures { OnOk result (self.new ≡ shared to self.old) }
    {
        let cycles = to.saturating_sub(self.done);
        match self.last {
            None => self.lead = self.lead.saturating_add(cycles),
            Some(row) => match row.kind {
                Kind::Instr { pc, word, .. } => {
                    let executed = self.executes(row.cycle, word, to);
                    count(&mut self.at, pc, executed)?;
                    self.asleep = self.asleep.saturating_add(cycles - executed);
                }
                Kind::Enter { vector, .. } => count(&mut self.entered, vector, cycles)?,
                Kind::Stop { .. } => self.stopped = self.stopped.saturating_add(cycles),
                Kind::Serial { .. } | Kind::Sent { .. } | Kind::Heard { .. } | Kind::End { .. } =>
                    {}
            },
        }
        self.done = to;
        Ok(())
    }

    // The row takes over.
    fn follow(&mut self, row: &Row) -> Result<(), AllocError>
        ensures { OnOk result (self.new ≡ followed row.now self.old) }
    {
        self.share(row.cycle.max(self.window.0))?;
        self.last = Some(*row);
        Ok(())
    }

    /// Takes the next row. Rows of other nodes, and those that no profile over the window needs, are passed over. `Err`
    /// only for want of memory.
    pub fn take(&mut self, row: &Row) -> Result<(), AllocError>
        ensures { OnOk result (self.new ≡ tallied row.now self.old) }
    {
        if row.node != self.node || !matters(row, self.window) {
            return Ok(());
        }
        match row.kind {
            Kind::Instr { .. } | Kind::Enter { .. } | Kind::Stop { .. } => self.follow(row),
            Kind::Sent { .. } => {
                self.sent = self.sent.saturating_add(1);
                Ok(())
            }
            Kind::Serial { .. } | Kind::Heard { .. } | Kind::End { .. } => Ok(()),
        }
    }

    // The charge in its units: 8 for a cycle awake, 1 for a cycle of sleep, 512 for a byte sent.
    fn charge(&self) -> u64
        requires { AWAKE_CHARGE * (self.now.window.1 - self.now.window.0) + self.now.asleep + SENT_CHARGE * self.now.sent < 2 ^ 64 }
        ensures { result ≡ charge_of self.now }
    {
        let awake = self
            .window
            .1
            .saturating_sub(self.window.0)
            .saturating_sub(self.lead)
            .saturating_sub(self.asleep)
            .saturating_sub(self.stopped);
        AWAKE_CHARGE * awake + self.asleep + SENT_CHARGE * self.sent
    }

    // The sums, once all cycles of the window are shared out.
    fn told(&self, alloc: Global) -> Result<Profile, NoMemory>
        requires { AWAKE_CHARGE * (self.now.window.1 - self.now.window.0) + self.now.asleep + SENT_CHARGE * self.now.sent < 2 ^ 64 }
        ensures told { IfOk result (λ p. p ≡ told self.now) }
        ensures at { length self.now.at ≤ 65536 }
        ensures entered { length self.now.entered ≤ 65536 }
    {
        let at = used(alloc, &self.at)?;
        let entered = used(alloc, &self.entered)?;
        Ok(Profile {
            lead: self.lead,
            at,
            entered,
            asleep: self.asleep,
            stopped: self.stopped,
            charge: self.charge(),
        })
    }

    /// No more rows come: the profile of the node over the window. By `tally_law` it is the account of the rows that were
    /// taken, where they came in order of cycle. `Err` only for want of memory.
    pub fn profile(mut self, alloc: Global) -> Result<Profile, NoMemory>
        requires { AWAKE_CHARGE * (self.window.1 - self.window.0) + (ended self).asleep + SENT_CHARGE * self.sent < 2 ^ 64 }
        ensures told { IfOk result (λ p. p ≡ told (ended self)) }
        ensures at { IfOk result (λ p. length (ended self).at ≤ 65536) }
        ensures entered { IfOk result (λ p. length (ended self).entered ≤ 65536) }
    {
        let end = self.window.0.max(self.window.1);
        self.share(end)?;
        self.told(alloc)
    }
}
