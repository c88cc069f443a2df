// For each node the nodes that it hears, so that they are found at once.
ghost use Rattle.std.specs.Prelude.{◌≡◌, ℕ, ◌<◌, ◌≤◌, ◌+◌, ◌++◌, ◌∷◌, [], length, take};
ghost use Rattle.air_base.specs.declared.bounds.TheConstants.{MOST_NODES};
ghost use Rattle.world_core.specs.NeighbourTable.{listed, entered, row_at, AreEntered};

use crate::link_table::LinkTable;
use air_base::MOST_NODES;

/// Numbers of at most `MOST_NODES` nodes.
#[derive(Clone, Copy)]
pub struct NodeList {
    pub numbers: [u8; MOST_NODES as usize],
    pub count: usize,
}

impl NodeList {
    /// No nodes.
    pub fn new() -> NodeList
        ensures { result.count ≡ 0 }
    {
        NodeList {
            numbers: [0; MOST_NODES as usize],
            count: 0,
        }
    }

    /// Adds a node at the end.
    pub fn add(&mut self, node: u8)
        requires { self.old.count < MOST_NODES }
        ensures list { listed self.new ≡ listed self.old ++ node ∷ [] }
        ensures count { self.new.count ≡ self.old.count + 1 }
    {
        self.numbers[self.count] = node;
        self.count += 1;
    }

    /// The numbers, in the order in which they were added.
    pub fn numbers(&self) -> &[u8]
        requires { self.now.count ≤ MOST_NODES }
        ensures { result.now ≡ listed self.now }
    {
        &self.numbers[..self.count]
    }
}

// The nodes below `nodes` that node `to` hears, from the lowest on.
fn heard_by(table: &LinkTable, nodes: u8, to: u8) -> NodeList
    requires { (nodes ≤ MOST_NODES) × (to < MOST_NODES) }
    ensures list { listed result ≡ entered table.now.rows to nodes }
    ensures count { result.count ≤ MOST_NODES }
{
    let mut list = NodeList::new();
    for from in 0..nodes {
        if table.entry(from, to) != 0 {
            list.add(from);
        }
    }
    list
}

/// For each of `MOST_NODES` nodes the nodes that it hears.
#[derive(Clone, Copy)]
pub struct NeighbourTable {
    pub rows: [NodeList; MOST_NODES as usize],
}

impl NeighbourTable {
    /// The lists of the links in this table, whose ends lie below `nodes`.
    pub fn of(table: &LinkTable, nodes: u8) -> NeighbourTable
        requires { nodes ≤ MOST_NODES }
        ensures { AreEntered table.now.rows nodes MOST_NODES result.rows }
    {
        let mut rows = [NodeList::new(); MOST_NODES as usize];
        for to in 0..MOST_NODES {
            rows[usize::from(to)] = heard_by(table, nodes, to);
        }
        NeighbourTable { rows }
    }

    /// The nodes that this node hears, from the lowest on.
    pub fn of_node(&self, node: u8) -> &[u8]
        requires node { node < MOST_NODES }
        requires counts { (j : ℕ) → j < MOST_NODES → (row_at self.now.rows j).count ≤ MOST_NODES }
        ensures { result.now ≡ listed (row_at self.now.rows node) }
    {
        self.rows[usize::from(node)].numbers()
    }
}
