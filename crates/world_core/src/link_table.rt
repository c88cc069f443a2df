// The links of a topology as a table of places, so that a link is looked up at once.
ghost use Rattle.std.specs.Prelude.{◌≡◌, ℕ, ◌+◌, ◌<◌, ◌&&◌, ◌==◌, if◌then◌else◌, length};
ghost use Rattle.air_base.specs.declared.bounds.TheConstants.{MOST_NODES};
ghost use Rattle.world_core.specs.declared.link_table.TheConstants.{PAIRS};
ghost use Rattle.world_core.specs.LinkTable.{entry_at, filled};

use air_base::MOST_NODES;

// How many entries a node has.
const ROW: usize = MOST_NODES as usize;

// How many entries there are.
const PAIRS: usize = ROW * ROW;

/// A link of a topology: a node that hears another one.
#[derive(Clone, Copy)]
pub struct Link {
    /// The number of the node that is heard.
    pub from: u8,
    /// The number of the node that hears it.
    pub to: u8,
}

/// Who hears whom: entry `MOST_NODES` * j + k is one more than the place of the link from node k to node j, or 0.
#[derive(Clone, Copy)]
pub struct LinkTable {
    pub rows: [u16; PAIRS],
}

impl LinkTable {
    /// The table of no links.
    pub fn new() -> LinkTable
        ensures { (from to : ℕ) → from < MOST_NODES → to < MOST_NODES → entry_at result.rows from to ≡ 0 }
    {
        LinkTable { rows: [0; PAIRS] }
    }

    /// One more than the place of the link from node `from` to node `to`, or 0 where there is none.
    pub fn entry(&self, from: u8, to: u8) -> u16
        requires { (from < MOST_NODES) × (to < MOST_NODES) }
        ensures value { result ≡ entry_at self.now.rows from to }
        ensures size { length self.now.rows ≡ PAIRS }
    {
        self.rows[ROW * usize::from(to) + usize::from(from)]
    }

    /// Adds the link at this place, which has no entry yet.
    pub fn add(&mut self, link: Link, place: u16)
        requires ends { (link.from < MOST_NODES) × (link.to < MOST_NODES) }
        requires place { place < PAIRS }
        requires free { entry_at self.old.rows link.from link.to ≡ 0 }
        ensures entries { (from to : ℕ) → from < MOST_NODES → to < MOST_NODES
            → entry_at self.new.rows from to ≡ (if (link.from == from) && (link.to == to) then place + 1 else entry_at self.old.rows from to) }
        ensures filled { filled self.new.rows ≡ filled self.old.rows + 1 }
    {
        self.rows[ROW * usize::from(link.to) + usize::from(link.from)] = place + 1;
    }
}
