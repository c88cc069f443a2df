// The sniffer.
ghost use Rattle.std.specs.Prelude.{◌≡◌, ◌≤◌, ◌++◌, length, drop, vec_capacity, IfOk};
ghost use Rattle.world_core.specs.Sends.{sends_of};
ghost use Rattle.air_sniffer.specs.Frames.{frames};
ghost use Rattle.air_sniffer.specs.Sniffed.{sure, open_part};

use crate::Frame;
use crate::scan::{MOST_OPEN, is_open, step};
use air_base::Send;
use std::alloc::{AllocError, Global};
use std::marker::Model;
use world_core::NoMemory;

/// A sniffer of what one node sends. It holds the sends that may still become a frame, which are at most
/// `MOST_OPEN`.
#[derive(Drop)]
pub struct Sniffer {
    alloc: Global,
    node: u8,
    held: Vec<Send>,
}

impl Model for Sniffer {
    ghost use Rattle.std.specs.Prelude.{◌≤◌, length, vec_capacity};
    ghost use Rattle.air_sniffer.specs.declared.scan.TheConstants.{MOST_OPEN};
    ghost use Rattle.air_sniffer.specs.Sniffed.{SnifferFacts};

    ghost Value = { SnifferFacts };

    ghost view = { λ s. record { node = s.node; held = s.held.items } };

    ghost invariant = { λ s. (length s.held.items ≤ MOST_OPEN) × (MOST_OPEN ≤ vec_capacity s.held) };
}

// The sends held, and behind them those of the node.
fn joined(alloc: Global, held: &[Send], node: u8, sends: &[Send]) -> Result<Vec<Send>, AllocError>
    ensures { IfOk result (λ line. line.items ≡ held.now ++ sends_of node sends.now) }
{
    let mut line = Vec::with_capacity(alloc, held.len())?;
    for send in held {
        line.push(*send)?;
    }
    for send in sends {
        if send.node == node {
            line.push(*send)?;
        }
    }
    Ok(line)
}

// Keeps these sends, for which there is room, in place of those held.
fn hold(held: &mut Vec<Send>, rest: &[Send])
    requires { length rest.now ≤ vec_capacity held.old }
    ensures items { held.new.items ≡ rest.now }
    ensures capacity { vec_capacity held.new ≡ vec_capacity held.old }
{
    held.clear();
    for send in rest {
        held.push_reserved(*send);
    }
}

// The sure frames of these sends, and where their open part begins.
fn sure_frames(alloc: Global, sends: &[Send]) -> Result<(Vec<Frame>, usize), AllocError>
    ensures within { IfOk result (λ r. r.1 ≤ length sends.now) }
    ensures frames { IfOk result (λ r. r.0.items ≡ sure sends.now) }
    ensures rest { IfOk result (λ r. drop r.1 sends.now ≡ open_part sends.now) }
{
    let mut frames = Vec::new(alloc);
    let mut at = 0;
    while at < sends.len() && !is_open(&sends[at..]) {
        at += step(&sends[at..], &mut frames)?;
    }
    Ok((frames, at))
}

// The frames of these sends.
fn all_frames(alloc: Global, sends: &[Send]) -> Result<Vec<Frame>, AllocError>
    ensures { IfOk result (λ v. v.items ≡ frames sends.now) }
{
    let mut frames = Vec::new(alloc);
    let mut at = 0;
    while at < sends.len() {
        at += step(&sends[at..], &mut frames)?;
    }
    Ok(frames)
}

impl Sniffer {
    ghost use Rattle.std.specs.Prelude.{◌≡◌, ◌≤◌, [], length, IfOk, OnOk, OnErr};
    ghost use Rattle.air_sniffer.specs.declared.scan.TheConstants.{MOST_OPEN};
    ghost use Rattle.air_sniffer.specs.Frames.{frames};
    ghost use Rattle.air_sniffer.specs.Sniffed.{sure, sniffer_of, line_of, fed};

    /// A sniffer of this node's sends, which holds none. Its room is taken at once.
    pub fn new(alloc: Global, node: u8) -> Result<Sniffer, NoMemory>
        ensures { IfOk result (λ s. s ≡ sniffer_of node []) }
    {
        Ok(Sniffer {
            alloc,
            node,
            held: Vec::with_capacity(alloc, MOST_OPEN)?,
        })
    }

    /// Takes the sends that come next; those of other nodes are passed over. The answer is the frames that are sure by
    /// now and were not before: a frame as soon as its last byte is there. Where there was no memory, the sniffer is as
    /// before.
    pub fn feed(&mut self, sends: &[Send]) -> Result<Vec<Frame>, NoMemory>
        ensures frames { IfOk result (λ v. v.items ≡ sure (line_of self.old sends.now)) }
        ensures held { OnOk result (self.new ≡ fed self.old sends.now) }
        ensures same { OnErr result (self.new ≡ self.old) }
        ensures bound { length self.new.held ≤ MOST_OPEN }
    {
        let line = joined(self.alloc, &self.held, self.node, sends)?;
        let (frames, at) = sure_frames(self.alloc, &line)?;
        hold(&mut self.held, &line[at..]);
        Ok(frames)
    }

    /// No more sends come: the frames of those that are held.
    pub fn finish(self) -> Result<Vec<Frame>, NoMemory>
        ensures { IfOk result (λ v. v.items ≡ frames self.held) }
    {
        Ok(all_frames(self.alloc, &self.held)?)
    }
}
