// The profile of one node.
ghost use Rattle.std.specs.Prelude.{◌≡◌, ◌+◌, ◌-◌, ◌*◌, ◌^◌, ◌<◌, IfOk};
ghost use Rattle.node_monitors.specs.Account.{account, bytes_sent, whole};
ghost use Rattle.node_monitors.specs.declared.spent.TheConstants.{AWAKE_CHARGE, SENT_CHARGE};

use crate::Spent;
use crate::ledger::Ledger;
use avr_base::NoMemory;
use node_core::Row;
use std::alloc::Global;
use std::marker::Model;

/// On what a node spent each cycle of a window of a trace. A contract sees it as its account.
#[derive(Drop)]
pub struct Profile {
    pub(crate) lead: u64,
    pub(crate) at: Vec<Spent>,
    pub(crate) entered: Vec<Spent>,
    pub(crate) asleep: u64,
    pub(crate) stopped: u64,
    pub(crate) charge: u64,
}

impl Model for Profile {
    ghost use Rattle.node_monitors.specs.Account.{Account};

    ghost Value = { Account };

    ghost view = { λ p. record { lead = p.lead; at = p.at.items; entered = p.entered.items; asleep = p.asleep; stopped = p.stopped; charge = p.charge } };
}

impl Profile {
    /// The profile of the node `node` over the cycles from `window.0` on, below `window.1`; `rows` are the rows of a
    /// trace in their order. Rows of other nodes and kinds are passed over. The charge of a node that is awake in each
    /// cycle must fit, as it does for all windows and sends of a scenario. `Err` only for want of memory.
    pub fn of(
        alloc: Global,
        node: u8,
        window: (u64, u64),
        rows: &[Row],
    ) -> Result<Profile, NoMemory>
        requires { AWAKE_CHARGE * (window.1 - window.0) + SENT_CHARGE * bytes_sent node window rows.now < 2 ^ 64 }
        ensures account { IfOk result (λ p. p ≡ account node window rows.now) }
        ensures whole { IfOk result (λ p. whole p ≡ window.1 - window.0) }
    {
        let ledger = Ledger::of(alloc, node, window, rows)?;
        let at = ledger.at(alloc)?;
        let entered = ledger.entered(alloc)?;
        Ok(Profile {
            lead: ledger.lead(),
            at,
            entered,
            asleep: ledger.asleep(),
            stopped: ledger.stopped(),
            charge: ledger.charge(),
        })
    }

    /// The cycles of the window before the node's first row.
    pub fn lead(&self) -> u64
        ensures { result ≡ self.now.lead }
    {
        self.lead
    }

    /// The instructions that were executed, in rising order of their addresses.
    pub fn at(&self) -> &[Spent]
        ensures { result.now ≡ self.now.at }
    {
        &self.at
    }

    /// The vectors that were entered, in rising order.
    pub fn entered(&self) -> &[Spent]
        ensures { result.now ≡ self.now.entered }
    {
        &self.entered
    }

    /// The cycles of sleep.
    pub fn asleep(&self) -> u64
        ensures { result ≡ self.now.asleep }
    {
        self.asleep
    }

    /// The cycles after the node stopped.
    pub fn stopped(&self) -> u64
        ensures { result ≡ self.now.stopped }
    {
        self.stopped
    }

    /// The charge in its units: 8 for each cycle awake, 1 for each cycle of sleep, 512 for each byte sent in the
    /// window.
    pub fn charge(&self) -> u64
        ensures { result ≡ self.now.charge }
    {
        self.charge
    }
}
