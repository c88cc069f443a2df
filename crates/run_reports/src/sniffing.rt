// One node that is sniffed.
ghost use Rattle.std.specs.Prelude.{◌≡◌, ◌++◌, OnOk};
ghost use Rattle.std.specs.List.{flat_map};
ghost use Rattle.run_reports.specs.Frames.{frame_line};

use crate::frame_lines::put_frame;
use air_base::Send;
use air_sniffer::{Frame, Sniffer};
use avr_base::NoMemory;
use std::alloc::{AllocError, Global};
use std::marker::Model;

/// A sniffer, and the frames that it gave.
#[derive(Drop)]
pub struct Sniffing {
    sniffer: Sniffer,
    frames: Vec<Frame>,
}

impl Model for Sniffing {
    ghost use Rattle.run_reports.specs.Sniffing.{Watch};

    ghost Value = { Watch };

    ghost view = { λ s. record { sniffer = s.sniffer; gave = s.frames.items } };
}

fn put_frames(frames: &[Frame], text: &mut Vec<u8>) -> Result<(), AllocError>
    ensures { OnOk result (text.new.items ≡ text.old.items ++ flat_map frame_line frames.now) }
{
    for frame in frames {
        put_frame(frame, text)?;
    }
    Ok(())
}

impl Sniffing {
    ghost use Rattle.std.specs.Prelude.{◌≡◌, ◌++◌, IfOk, OnOk};
    ghost use Rattle.run_reports.specs.Sniffing.{fed_more, unfed, watch_text};

    /// Of a node of which no send was told.
    pub fn new(alloc: Global, node: u8) -> Result<Sniffing, NoMemory>
        ensures { IfOk result (λ s. s ≡ unfed node) }
    {
        let Ok(sniffer) = Sniffer::new(alloc, node) else {
            return Err(NoMemory);
        };
        Ok(Sniffing {
            sniffer,
            frames: Vec::new(alloc),
        })
    }

    /// Takes the sends that come next; those of other nodes are passed over.
    pub fn feed(&mut self, sends: &[Send]) -> Result<(), NoMemory>
        ensures { OnOk result (self.new ≡ fed_more sends.now self.old) }
    {
        let Ok(mut more) = self.sniffer.feed(sends) else {
            return Err(NoMemory);
        };
        match self.frames.append(&mut more) {
            Ok(()) => Ok(()),
            Err(_) => Err(NoMemory),
        }
    }

    /// No more sends come: appends a line for each frame.
    pub fn write(self, text: &mut Vec<u8>) -> Result<(), NoMemory>
        ensures { OnOk result (text.new.items ≡ text.old.items ++ watch_text self) }
    {
        let Sniffing { sniffer, frames } = self;
        put_frames(frames.as_slice(), text)?;
        let Ok(last) = sniffer.finish() else {
            return Err(NoMemory);
        };
        put_frames(last.as_slice(), text)?;
        Ok(())
    }
}
