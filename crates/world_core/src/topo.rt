// The topology of a network of nodes.
ghost use Rattle.std.specs.Prelude.{◌≡◌, ◌↔◌, ◌==◌, ◌&&◌, ◌+◌, nat_le, nat_lt, ◌<◌, ◌≤◌, MatchResult, IsTrue, length};
ghost use Rattle.air_base.specs.Bounds.{LAST_CYCLE};
ghost use Rattle.air_base.specs.declared.bounds.TheConstants.{LONGEST_BYTE, LONGEST_LATENCY, MOST_NODES, SHORTEST_BYTE};
ghost use Rattle.std.specs.List.{All, AllPairs, list_any};
ghost use Rattle.world_core.specs.FirstFault.{AllKeep};
ghost use Rattle.world_core.specs.Topology.{topology, HasRanges, IsNewLink, IsLinkFault, IsSpan, IsSpanOrder, place_in, greatest, has_span};
ghost use Rattle.world_core.specs.LinkTable.{IsTableOf};

use crate::link_table::LinkTable;
use crate::neighbours::NeighbourTable;
use crate::spans::{MOST_SPANS, is_open_at, is_reached};
use crate::{Link, NoMemory, Span, TopoFault};
use air_base::{
    LAST_CYCLE, LAST_SHORT_CYCLE, LONGEST_BYTE, LONGEST_LATENCY, MOST_NODES, SHORTEST_BYTE,
};
use std::marker::Model;

/// Which nodes there are, how long they run, and who hears whom: what all nodes of a network share.
/// Its numbers are in their ranges (nodes 1 to 64, limit 1 to 2^40 cycles, latency 1 to 65,535 cycles, byte time
/// 256 to 4,096 cycles), each link joins two different nodes that there are, and no link stands there twice.
pub struct Topo {
    nodes: u8,
    limit: u64,
    latency: u64,
    byte_time: u64,
    links: Vec<Link>,
    own: Vec<u64>,
    spans: Vec<Span>,
    // the greatest latency of all
    reach: u64,
    table: LinkTable,
    // the nodes that each node hears, of `table`
    neighbours: NeighbourTable,
}

// By hand, so that an exit that lets go of one, here and in the crates above, has one call to prove.
impl Drop for Topo {
    fn drop(self) {
        let Topo {
            nodes: _,
            limit: _,
            latency: _,
            byte_time: _,
            links: _,
            own: _,
            spans: _,
            reach: _,
            table: _,
            neighbours: _,
        } = self;
    }
}

impl Model for Topo {
    ghost use Rattle.std.specs.Prelude.{◌≡◌};
    ghost use Rattle.air_base.specs.declared.bounds.TheConstants.{MOST_NODES};
    ghost use Rattle.world_core.specs.Topology.{Topology, topology, IsTopology, greatest};
    ghost use Rattle.world_core.specs.LinkTable.{IsTableOf};
    ghost use Rattle.world_core.specs.NeighbourTable.{AreEntered};

    ghost Value = { Topology };

    ghost view = { λ t. topology t.nodes t.limit t.latency t.byte_time t.links.items t.own.items t.spans.items };

    ghost invariant = { λ t. IsTopology (topology t.nodes t.limit t.latency t.byte_time t.links.items t.own.items t.spans.items) × IsTableOf t.links.items t.table.rows × AreEntered t.table.rows t.nodes MOST_NODES t.neighbours.rows × (t.reach ≡ greatest t.own.items t.latency) };
}

// Whether each link ends at nodes that there are.
fn are_ends(nodes: u8, links: &[Link]) -> bool
    ensures { IsTrue result ↔ All (λ l. (l.from < nodes) × (l.to < nodes)) links.now }
{
    links.iter().all(|l| l.from < nodes && l.to < nodes)
}

// Whether the numbers of a topology are in their ranges.
fn are_numbers(nodes: u8, limit: u64, latency: u64, byte_time: u64) -> bool
    ensures { IsTrue result ↔ ((1 ≤ nodes) × (nodes ≤ MOST_NODES) × (1 ≤ limit) × (limit ≤ LAST_CYCLE) × (1 ≤ latency) × (latency ≤ LONGEST_LATENCY) × (SHORTEST_BYTE ≤ byte_time) × (byte_time ≤ LONGEST_BYTE)) }
{
    (1..=MOST_NODES).contains(&nodes)
        && (1..=LAST_CYCLE).contains(&limit)
        && (1..=LONGEST_LATENCY).contains(&latency)
        && (SHORTEST_BYTE..=LONGEST_BYTE).contains(&byte_time)
}

// Whether there is no own latency, or one of each link.
fn are_enough(count: usize, own: &[u64]) -> bool
    ensures { IsTrue result ↔ (0 < length own.now → length own.now ≡ count) }
{
    if own.len() == 0 {
        return true;
    }
    own.len() == count
}

// Whether all own latencies are in their range.
fn are_latencies(own: &[u64]) -> bool
    ensures { IsTrue result ↔ All (λ n. (1 ≤ n) × (n ≤ LONGEST_LATENCY)) own.now }
{
    own.iter().all(|n| (1..=LONGEST_LATENCY).contains(n))
}

// Whether all spans are in their ranges, where there are so many links.
fn are_spans(count: u64, spans: &[Span]) -> bool
    ensures { IsTrue result ↔ All (IsSpan count) spans.now }
{
    spans.iter().all(|s| u64::from(s.link) < count && s.from < s.until && s.until <= LAST_CYCLE)
}

// Whether the span `next` may stand behind the span `last`.
fn may_follow(last: &Span, next: &Span) -> bool
    ensures { IsTrue result ↔ IsSpanOrder last.now next.now }
{
    if last.link == next.link {
        return last.until <= next.from;
    }
    last.link < next.link
}

// Whether the spans stand in order.
fn are_apart(count: u64, spans: &[Span]) -> bool
    requires { All (IsSpan count) spans.now }
    ensures { IsTrue result ↔ AllPairs IsSpanOrder spans.now }
{
    for place in 1..spans.len() {
        if !may_follow(&spans[place - 1], &spans[place]) {
            return false;
        }
    }
    true
}

// Whether the numbers are in their ranges, and each link ends at nodes that there are.
fn are_in_range(
    nodes: u8,
    limit: u64,
    latency: u64,
    byte_time: u64,
    links: &[Link],
    own: &[u64],
    spans: &[Span],
) -> bool
    ensures { IsTrue result ↔ HasRanges (topology nodes limit latency byte_time links.now own.now spans.now) }
{
    if !are_numbers(nodes, limit, latency, byte_time) {
        return false;
    }
    if !are_ends(nodes, links) {
        return false;
    }
    let count = links.len();
    if !are_enough(count, own) {
        return false;
    }
    if !are_latencies(own) {
        return false;
    }
    if spans.len() > MOST_SPANS {
        return false;
    }
    if !are_spans(count as u64, spans) {
        return false;
    }
    are_apart(count as u64, spans)
}

// The table of the links, or the first link that goes to its own node or equals an earlier one.
fn table_of(links: &[Link]) -> Result<LinkTable, TopoFault>
    requires { All (λ l. (l.from < MOST_NODES) × (l.to < MOST_NODES)) links.now }
    ensures { MatchResult result
        (λ table. AllKeep IsNewLink links.now × IsTableOf links.now table.rows)
        (IsLinkFault links.now) }
{
    let mut table = LinkTable::new();
    for (place, link) in links.iter().enumerate() {
        if link.from == link.to {
            return Err(TopoFault::SelfLink { place });
        }
        if table.entry(link.from, link.to) != 0 {
            return Err(TopoFault::TwiceLinked { place });
        }
        table.add(*link, place as u16);
    }
    Ok(table)
}

// The greatest of these numbers.
fn greatest(own: &[u64], least: u64) -> u64
    ensures { result ≡ greatest own.now least }
{
    let mut most = least;
    for n in own {
        most = most.max(*n);
    }
    most
}

impl Topo {
    ghost use Rattle.std.specs.Prelude.{◌≡◌, ◌↔◌, ◌≤◌, [], IfOk, IfErr, IsOk, IsTrue};
    ghost use Rattle.air_base.specs.declared.bounds.TheConstants.{LAST_SHORT_CYCLE, LONGEST_LATENCY};
    ghost use Rattle.world_core.specs.Topology.{topology, is_linked, is_needed, is_open, latency_of, neighbours, place_in, reach, IsTopology, IsTopoFault, IsShortFault};

    /// The topology of these numbers: `limit`, `latency` and `byte_time` in cycles, the limit at most 10,000,000. Each
    /// link has the topology's latency and is always open. It takes no memory. `Range` exactly where a number is out of
    /// its range (see the type) or a link ends at a node that there is not; else the first link that goes to its own
    /// node, or equals an earlier one, is refused with its place.
    pub fn new(
        nodes: u8,
        limit: u64,
        latency: u64,
        byte_time: u64,
        links: Vec<Link>,
    ) -> Result<Topo, TopoFault>
        ensures ok { IsOk result ↔ (IsTopology (topology nodes limit latency byte_time links.items [] []) × (limit ≤ LAST_SHORT_CYCLE)) }
        ensures value { IfOk result (λ t. t ≡ topology nodes limit latency byte_time links.items [] []) }
        ensures fault { IfErr result (IsShortFault (topology nodes limit latency byte_time links.items [] [])) }
    {
        let own = Vec::new(*links.allocator());
        Topo::with_latencies(nodes, limit, latency, byte_time, links, own)
    }

    /// The topology of these numbers: `limit`, `latency` and `byte_time` in cycles, the limit at most 10,000,000. `own`
    /// has each link's own latency, in the order of the links; where it is empty, each link has `latency`. Each link is
    /// always open. It takes no memory. `Range` exactly where a number is out of its range (see the type), `own` has
    /// another length or a number outside 1 to 65,535, or a link ends at a node that there is not; else the first link
    /// that goes to its own node, or equals an earlier one, is refused with its place.
    pub fn with_latencies(
        nodes: u8,
        limit: u64,
        latency: u64,
        byte_time: u64,
        links: Vec<Link>,
        own: Vec<u64>,
    ) -> Result<Topo, TopoFault>
        ensures ok { IsOk result ↔ (IsTopology (topology nodes limit latency byte_time links.items own.items []) × (limit ≤ LAST_SHORT_CYCLE)) }
        ensures value { IfOk result (λ t. t ≡ topology nodes limit latency byte_time links.items own.items []) }
        ensures fault { IfErr result (IsShortFault (topology nodes limit latency byte_time links.items own.items [])) }
    {
        if limit > LAST_SHORT_CYCLE {
            return Err(TopoFault::Range);
        }
        let spans = Vec::new(*links.allocator());
        match Topo::with_spans(nodes, limit, latency, byte_time, links, own, spans) {
            Ok(topo) => Ok(topo),
            Err(fault) => Err(fault),
        }
    }

    /// The topology of these numbers: `limit`, `latency` and `byte_time` in cycles, the limit at most 2^40. `own` has
    /// each link's own latency, in the order of the links; where it is empty, each link has `latency`. `spans` says
    /// when links are open, by link, and within one link in order and apart; a link with no span is always open. It
    /// takes no memory. `Range` exactly where a number is out of its range (see the type), `own` has another length or
    /// a number outside 1 to 65,535, a link ends at a node that there is not, or there are more than 4,096 spans or one
    /// that is of no link, empty, past cycle 2^40 or out of order; else the first link that goes to its own node, or
    /// equals an earlier one, is refused with its place.
    pub fn with_spans(
        nodes: u8,
        limit: u64,
        latency: u64,
        byte_time: u64,
        links: Vec<Link>,
        own: Vec<u64>,
        spans: Vec<Span>,
    ) -> Result<Topo, TopoFault>
        ensures ok { IsOk result ↔ IsTopology (topology nodes limit latency byte_time links.items own.items spans.items) }
        ensures value { IfOk result (λ t. t ≡ topology nodes limit latency byte_time links.items own.items spans.items) }
        ensures fault { IfErr result (IsTopoFault (topology nodes limit latency byte_time links.items own.items spans.items)) }
    {
        if !are_in_range(nodes, limit, latency, byte_time, &links, &own, &spans) {
            return Err(TopoFault::Range);
        }
        let reach = greatest(&own, latency);
        match table_of(&links) {
            Ok(table) => Ok(Topo {
                nodes,
                limit,
                latency,
                byte_time,
                links,
                own,
                spans,
                reach,
                neighbours: NeighbourTable::of(&table, nodes),
                table,
            }),
            Err(fault) => Err(fault),
        }
    }

    /// An equal topology.
    pub fn copy(&self) -> Result<Topo, NoMemory>
        ensures { IfOk result (λ t. t ≡ self.now) }
    {
        let links = self.links.clone()?;
        let own = self.own.clone()?;
        let spans = self.spans.clone()?;
        Ok(Topo {
            nodes: self.nodes,
            limit: self.limit,
            latency: self.latency,
            byte_time: self.byte_time,
            links,
            own,
            spans,
            reach: self.reach,
            table: self.table,
            neighbours: self.neighbours,
        })
    }

    /// How many nodes there are, 1 to 64; their numbers count from 0.
    pub fn nodes(&self) -> u8
        ensures value { result ≡ self.now.nodes }
        ensures lawful { IsTopology self.now }
    {
        self.nodes
    }

    /// The cycle at which a run ends, 1 to 2^40.
    pub fn limit(&self) -> u64
        ensures value { result ≡ self.now.limit }
        ensures lawful { IsTopology self.now }
    {
        self.limit
    }

    /// How many cycles after a send its byte is heard first, 1 to 65,535.
    pub fn latency(&self) -> u64
        ensures value { result ≡ self.now.latency }
        ensures lawful { IsTopology self.now }
    {
        self.latency
    }

    /// For how many cycles a byte is heard, 256 to 4,096.
    pub fn byte_time(&self) -> u64
        ensures value { result ≡ self.now.byte_time }
        ensures lawful { IsTopology self.now }
    {
        self.byte_time
    }

    /// The links, in the order in which they were handed in.
    pub fn links(&self) -> &[Link]
        ensures value { result.now ≡ self.now.links }
        ensures lawful { IsTopology self.now }
    {
        &self.links
    }

    /// Whether node `to` hears node `from`; false where there is no such node.
    pub fn linked(&self, from: u8, to: u8) -> bool
        ensures { result ≡ is_linked self.now from to }
    {
        if from >= self.nodes || to >= self.nodes {
            return false;
        }
        self.table.entry(from, to) != 0
    }

    /// The numbers of the nodes that node `node` hears, from the lowest on; none where there is no such node.
    pub fn neighbours(&self, node: u8) -> &[u8]
        ensures value { result.now ≡ neighbours self.now node }
        ensures lawful { IsTopology self.now }
    {
        if node >= self.nodes() {
            return &[];
        }
        self.neighbours.of_node(node)
    }

    // The place of the link from node `from` to node `to`, and the count of links where there is none.
    fn place_of(&self, from: u8, to: u8) -> usize
        ensures value { result ≡ place_in self.now.links from to }
    {
        let count = self.links().len();
        if from >= self.nodes() {
            return count;
        }
        if to >= self.nodes() {
            return count;
        }
        let entry = self.table.entry(from, to);
        if entry == 0 {
            return count;
        }
        usize::from(entry) - 1
    }

    /// How many cycles a byte takes from node `from` to node `to`, 1 to 65,535: the link's own latency, else
    /// `latency()`.
    pub fn latency_of(&self, from: u8, to: u8) -> u64
        ensures value { result ≡ latency_of self.now from to }
        ensures lawful { IsTopology self.now }
        ensures most { (1 ≤ result) × (result ≤ LONGEST_LATENCY) }
    {
        match self.own.get(self.place_of(from, to)) {
            Some(own) => *own,
            None => self.latency,
        }
    }

    /// The greatest latency of all, 1 to 65,535.
    pub fn reach(&self) -> u64
        ensures value { result ≡ reach self.now }
        ensures lawful { IsTopology self.now }
        ensures most { (1 ≤ result) × (result ≤ LONGEST_LATENCY) }
    {
        self.reach
    }

    // When links are open, as a search among them wants it: in order, and none of them empty.
    fn spans(&self) -> &[Span]
        ensures value { result.now ≡ self.now.spans }
        ensures apart { AllPairs IsSpanOrder result.now }
        ensures some { All (λ x. x.from < x.until) result.now }
    {
        &self.spans
    }

    /// Whether the link from node `from` to node `to` is open in this cycle.
    pub fn is_open(&self, from: u8, to: u8, cycle: u64) -> bool
        ensures { result ≡ is_open self.now from to cycle }
    {
        let place = self.place_of(from, to) as u64;
        is_open_at(self.spans(), place, cycle)
    }

    /// Whether node `to` may hear in this cycle a byte of node `from`: it hears that node, and their link was open in a
    /// cycle whose byte is heard in this one.
    pub fn needs(&self, from: u8, to: u8, cycle: u64) -> bool
        ensures value { result ≡ is_needed self.now from to cycle }
    {
        if !self.linked(from, to) {
            return false;
        }
        let place = self.place_of(from, to) as u64;
        let latency = self.latency_of(from, to);
        is_reached(self.spans(), place, latency, self.byte_time(), cycle)
    }
}
