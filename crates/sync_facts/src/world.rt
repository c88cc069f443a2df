// The world of the trials.
use air_base::{Ask, Send};
use list_world::ListWorld;
use std::alloc::Global;
use world_core::{Link, Topo};

const LATENCY: u64 = 300;

const BYTE_TIME: u64 = 256;

/// A world in which node 0 sends so many bytes without a pause, and node 1 samples each of them when it is heard first.
pub fn line_world(alloc: Global, bytes: u64) -> Option<ListWorld> {
    let mut links = Vec::new(alloc);
    links.push(Link { from: 0, to: 1 }).ok()?;
    let topo = Topo::new(2, 300_000, LATENCY, BYTE_TIME, links).ok()?;
    let mut sends = Vec::new(alloc);
    let mut asks = Vec::new(alloc);
    for number in 0..bytes.min(1_000) {
        let cycle = number * BYTE_TIME;
        let byte = number.to_le_bytes()[0];
        sends
            .push(Send {
                node: 0,
                cycle,
                byte,
            })
            .ok()?;
        asks.push(Ask {
            node: 1,
            cycle: cycle + LATENCY,
        })
        .ok()?;
    }
    ListWorld::new(topo, sends, asks).ok()
}
