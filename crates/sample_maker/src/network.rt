// The network of a sample.
ghost use Rattle.std.specs.Prelude.{◌≡◌, ◌↔◌, ◌≤◌, ℕ, true, false, length, if◌then◌else◌, ◌==◌, IfOk};
ghost use Rattle.world_core.specs.Topology.{IsTopology, is_linked};
ghost use Rattle.sample_maker.specs.Network.{IsNext, ring_links, ring_topology};
ghost use Rattle.air_base.specs.declared.bounds.TheConstants.{MOST_NODES};

use std::alloc::{AllocError, Global};
use world_core::{Link, Topo};

/// The cycles of a run.
pub const LIMIT: u64 = 1_000_000;

/// The cycles for which a byte is heard.
pub const BYTE_TIME: u64 = 512;

/// How many latencies there are: 1 cycle to so many.
pub const LATENCIES: u16 = 4_096;

// Each node is heard by the next one, and the last by node 0; a node alone has no link.
#[tactic(auto, unfolding(crate::specs::Network::ring_links))]
fn ring_links(alloc: Global, nodes: u8) -> Result<Vec<Link>, AllocError>
    requires { nodes ≤ MOST_NODES }
    ensures { IfOk result (λ links. links.items ≡ ring_links nodes) }
{
    let mut links = Vec::new(alloc);
    if nodes == 1 {
        return Ok(links);
    }
    for k in 0..nodes {
        links.push(Link {
            from: k,
            to: (k + 1) % nodes,
        })?;
    }
    Ok(links)
}

/// The topology of the sample of `number` with so many nodes, 1 to `MOST_NODES`.
pub fn ring_topology(alloc: Global, number: u16, nodes: u8) -> Result<Topo, AllocError>
    requires some { 1 ≤ nodes }
    requires few { nodes ≤ MOST_NODES }
    ensures { IfOk result (λ topo. topo ≡ ring_topology number nodes) }
{
    let links = ring_links(alloc, nodes)?;
    let latency = 1 + u64::from(number % LATENCIES);
    match Topo::new(nodes, LIMIT, latency, BYTE_TIME, links) {
        Ok(topo) => Ok(topo),
        Err(_) => unreachable!(),
    }
}

/// A law of the definitions, with nothing to run: the network of each sample is a topology, a node of it hears exactly
/// the one before it in the ring, and a node alone hears none.
pub fn each_node_hears_the_one_before()
    ensures topology { (number nodes : ℕ) → 1 ≤ nodes → nodes ≤ MOST_NODES → IsTopology (ring_topology number nodes) }
    ensures links { (nodes : ℕ) → length (ring_links nodes) ≡ (if nodes == 1 then 0 else nodes) }
    ensures hears { (number nodes from to : ℕ) → (is_linked (ring_topology number nodes) from to ≡ true) ↔ IsNext nodes from to }
{}
