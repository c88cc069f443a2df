// What the lines of a case file have set: a topology, with the sends and samples of a world.
use crate::{Fault, Section, byte_of};
use air_base::{Ask, Heard, Send};
use list_world::ListWorld;
use std::alloc::Global;
use world_core::{Link, Span, Topo, TopoFault, WorldFault};

/// What is set, for what is to come.
#[derive(Drop)]
pub struct Setting {
    /// How many nodes there are.
    pub nodes: u8,
    /// The cycle at which a run ends.
    pub limit: u64,
    /// The topology's latency, in cycles.
    pub latency: u64,
    /// The byte time, in cycles.
    pub byte_time: u64,
    /// The links.
    pub links: Vec<Link>,
    /// The links' own latencies, in cycles.
    pub own: Vec<u64>,
    /// When links are open.
    pub spans: Vec<Span>,
    /// The sends of a world.
    pub sends: Vec<Send>,
    /// The samples of a world.
    pub asks: Vec<Ask>,
}

fn link_of(numbers: &[u64]) -> Result<Link, Fault> {
    match numbers {
        [from, to] => Ok(Link {
            from: byte_of(*from)?,
            to: byte_of(*to)?,
        }),
        _ => Err(Fault::Unreadable),
    }
}

fn links_of(alloc: Global, numbers: &[u64]) -> Result<Vec<Link>, Fault> {
    let mut links = Vec::new(alloc);
    for numbers in numbers.chunks(2) {
        links.push(link_of(numbers)?)?;
    }
    Ok(links)
}

fn span_of(numbers: &[u64]) -> Result<Span, Fault> {
    match numbers {
        [link, from, until] => Ok(Span {
            link: u32::try_from(*link).map_err(|_| Fault::Unreadable)?,
            from: *from,
            until: *until,
        }),
        _ => Err(Fault::Unreadable),
    }
}

fn spans_of(alloc: Global, numbers: &[u64]) -> Result<Vec<Span>, Fault> {
    let mut spans = Vec::new(alloc);
    for numbers in numbers.chunks(3) {
        spans.push(span_of(numbers)?)?;
    }
    Ok(spans)
}

// So many spans of the first link: each of one cycle, from cycles 0, 2, 4 and so on.
fn many_spans(alloc: Global, numbers: &[u64]) -> Result<Vec<Span>, Fault> {
    let [count] = numbers else {
        return Err(Fault::Unreadable);
    };
    let mut spans = Vec::new(alloc);
    for number in 0..(*count).min(10_000) {
        spans.push(Span {
            link: 0,
            from: 2 * number,
            until: 2 * number + 1,
        })?;
    }
    Ok(spans)
}

/// A send by its node, cycle and byte.
pub fn send_of(numbers: &[u64]) -> Result<Send, Fault> {
    match numbers {
        [node, cycle, byte] => Ok(Send {
            node: byte_of(*node)?,
            cycle: *cycle,
            byte: byte_of(*byte)?,
        }),
        _ => Err(Fault::Unreadable),
    }
}

/// A list of sends, each by its node, cycle and byte.
pub fn sends_of(alloc: Global, numbers: &[u64]) -> Result<Vec<Send>, Fault> {
    let mut sends = Vec::new(alloc);
    for numbers in numbers.chunks(3) {
        sends.push(send_of(numbers)?)?;
    }
    Ok(sends)
}

fn ask_of(numbers: &[u64]) -> Result<Ask, Fault> {
    match numbers {
        [node, cycle] => Ok(Ask {
            node: byte_of(*node)?,
            cycle: *cycle,
        }),
        _ => Err(Fault::Unreadable),
    }
}

fn asks_of(alloc: Global, numbers: &[u64]) -> Result<Vec<Ask>, Fault> {
    let mut asks = Vec::new(alloc);
    for numbers in numbers.chunks(2) {
        asks.push(ask_of(numbers)?)?;
    }
    Ok(asks)
}

fn sample_of(numbers: &[u64]) -> Result<(Ask, Heard), Fault> {
    match numbers {
        [node, cycle, status, byte, age] => {
            let ask = Ask {
                node: byte_of(*node)?,
                cycle: *cycle,
            };
            let heard = Heard {
                status: byte_of(*status)?,
                byte: byte_of(*byte)?,
                age: byte_of(*age)?,
            };
            Ok((ask, heard))
        }
        _ => Err(Fault::Unreadable),
    }
}

/// A list of samples, each by its node and cycle, and the status, byte and age that it heard.
pub fn samples_of(alloc: Global, numbers: &[u64]) -> Result<Vec<(Ask, Heard)>, Fault> {
    let mut samples = Vec::new(alloc);
    for numbers in numbers.chunks(5) {
        samples.push(sample_of(numbers)?)?;
    }
    Ok(samples)
}

/// A list of numbers.
pub fn copy_of(alloc: Global, numbers: &[u64]) -> Result<Vec<u64>, Fault> {
    let mut list = Vec::new(alloc);
    list.extend_from_slice(numbers)?;
    Ok(list)
}

impl Setting {
    /// Nothing is set: no nodes, and empty lists.
    pub fn new(alloc: Global) -> Setting {
        Setting {
            nodes: 0,
            limit: 0,
            latency: 0,
            byte_time: 0,
            links: Vec::new(alloc),
            own: Vec::new(alloc),
            spans: Vec::new(alloc),
            sends: Vec::new(alloc),
            asks: Vec::new(alloc),
        }
    }

    // Sets the numbers of a topology that has no links and no spans yet.
    fn set_topo(&mut self, alloc: Global, numbers: &[u64]) -> Result<(), Fault> {
        match numbers {
            [nodes, limit, latency, byte_time] => {
                self.nodes = byte_of(*nodes)?;
                self.limit = *limit;
                self.latency = *latency;
                self.byte_time = *byte_time;
                self.links = Vec::new(alloc);
                self.own = Vec::new(alloc);
                self.spans = Vec::new(alloc);
                Ok(())
            }
            _ => Err(Fault::Unreadable),
        }
    }

    /// Sets what the section says, or answers false where it says nothing of a world.
    pub fn set(&mut self, alloc: Global, section: &Section<'_>) -> Result<bool, Fault> {
        let numbers = section.numbers.as_slice();
        match section.word {
            "topo" => self.set_topo(alloc, numbers)?,
            "links" => self.links = links_of(alloc, numbers)?,
            "own" => self.own = copy_of(alloc, numbers)?,
            "spans" => self.spans = spans_of(alloc, numbers)?,
            "many" => self.spans = many_spans(alloc, numbers)?,
            "sends" => self.sends = sends_of(alloc, numbers)?,
            "asks" => self.asks = asks_of(alloc, numbers)?,
            _ => return Ok(false),
        }
        Ok(true)
    }

    /// The topology of these numbers and lists, of all its links' latencies and spans, or why there is none.
    pub fn topo(&self) -> Result<Result<Topo, TopoFault>, Fault> {
        let links = self.links.clone()?;
        let own = self.own.clone()?;
        let spans = self.spans.clone()?;
        Ok(Topo::with_spans(
            self.nodes,
            self.limit,
            self.latency,
            self.byte_time,
            links,
            own,
            spans,
        ))
    }

    /// A copy of the topology, where there is one.
    pub fn lawful_topo(&self) -> Result<Topo, Fault> {
        match self.topo()? {
            Ok(topo) => topo.copy().map_err(|_| Fault::NoMemory),
            Err(_) => Err(Fault::Unreadable),
        }
    }

    /// The world of the topology, the sends and the samples, or why there is none.
    pub fn listed_world(&self) -> Result<Result<ListWorld, WorldFault>, Fault> {
        let topo = self.lawful_topo()?;
        let sends = self.sends.clone()?;
        let asks = self.asks.clone()?;
        Ok(ListWorld::new(topo, sends, asks))
    }

    /// The world, where there is one.
    pub fn world(&self) -> Result<ListWorld, Fault> {
        self.listed_world()?.map_err(|_| Fault::Unreadable)
    }
}
