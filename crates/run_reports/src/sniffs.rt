// The frames of all nodes.
ghost use Rattle.std.specs.Prelude.{◌≡◌, map, IfOk, OnOk};
ghost use Rattle.std.specs.List.{flat_map};
ghost use Rattle.run_reports.specs.Frames.{send_told, sends_told};
ghost use Rattle.run_reports.specs.Sniffing.{fed_more, of_each, unfed, watch_text};

use crate::sniffing::Sniffing;
use air_base::Send;
use avr_base::NoMemory;
use node_core::{Kind, Row};
use node_runner::Scenario;
use std::alloc::{AllocError, Global};

// The send that a row tells, if it does.
fn send_told(row: &Row) -> Option<Send>
    ensures { result ≡ send_told row.now }
{
    match row.kind {
        Kind::Sent { byte } => Some(Send {
            node: row.node,
            cycle: row.cycle,
            byte,
        }),
        Kind::Instr { .. }
        | Kind::Enter { .. }
        | Kind::Serial { .. }
        | Kind::Heard { .. }
        | Kind::Stop { .. }
        | Kind::End { .. } => None,
    }
}

// The sends that rows tell, in their order.
#[tactic(auto, unfolding(crate::specs::Frames::sends_told))]
fn sends_told(alloc: Global, rows: &[Row]) -> Result<Vec<Send>, AllocError>
    ensures { IfOk result (λ sends. sends.items ≡ sends_told rows.now) }
{
    rows.iter().filter_map(|row| send_told(row)).collect(alloc)
}

// One for each node, in order of number.
fn all_nodes(alloc: Global, nodes: u8) -> Result<Vec<Sniffing>, NoMemory>
    ensures { IfOk result (λ all. all.items ≡ of_each nodes unfed) }
{
    let mut all = Vec::new(alloc);
    for node in 0..nodes {
        let sniffing = Sniffing::new(alloc, node)?;
        if all.push(sniffing).is_err() {
            return Err(NoMemory);
        }
    }
    Ok(all)
}

fn feed_all(all: &mut Vec<Sniffing>, sends: &[Send]) -> Result<(), NoMemory>
    ensures { OnOk result (all.new.items ≡ map (fed_more sends.now) all.old.items) }
{
    for sniffing in all.iter_mut() {
        sniffing.feed(sends)?;
    }
    Ok(())
}

/// A sniffer of each node of a network, in order of number, to which nothing was fed.
pub fn sniff_all(alloc: Global, network: &Scenario) -> Result<Vec<Sniffing>, NoMemory>
    ensures { IfOk result (λ all. all.items ≡ of_each network.now.topo.nodes unfed) }
{
    all_nodes(alloc, network.lawful_topo().nodes())
}

/// Feeds the sends that these rows tell to each of the sniffers.
pub fn feed_rows(alloc: Global, rows: &[Row], all: &mut Vec<Sniffing>) -> Result<(), NoMemory>
    ensures { OnOk result (all.new.items ≡ map (fed_more (sends_told rows.now)) all.old.items) }
{
    let sends = sends_told(alloc, rows)?;
    feed_all(all, sends.as_slice())
}

/// No more rows come: the lines of the frames of each, node after node.
pub fn frames_of(alloc: Global, all: Vec<Sniffing>) -> Result<Vec<u8>, NoMemory>
    ensures { IfOk result (λ text. text.items ≡ flat_map watch_text all.items) }
{
    let mut text = Vec::new(alloc);
    for sniffing in all {
        sniffing.write(&mut text)?;
    }
    Ok(text)
}
