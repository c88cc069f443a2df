// One pass over the lines of an image.
ghost use Rattle.std.specs.Prelude.{◌≡◌, ◌+◌, ◌<◌, ◌≤◌, ◌++◌, ◌⊎◌, ◌*◌, false, [], ◌∷◌, None, Some, length, IfOk, IfErr, OnOk};
ghost use Rattle.ihex_loader.specs.declared.fault.LineFault.{LineFault};
ghost use Rattle.ihex_loader.specs.Fault.{at_line};
ghost use Rattle.ihex_loader.specs.Line.{Record, line_of, without_cr, kind_of, offset_of, data_of, data_word};
ghost use Rattle.ihex_loader.specs.Image.{image, hex_fault};
ghost use Rattle.ihex_loader.specs.Pass.{shown, StandsFor, GoesOn, Refuses};

use crate::fault::{HexFault, LineFault};
use crate::flash::{FLASH_BYTES, Flash};
use crate::line::{Parsed, parse, trimmed};
use crate::record::RecordBytes;
use std::alloc::{AllocError, Global};

// The offsets of a segment.
const SEGMENT_BYTES: usize = 65_536;

/// What the lines so far have given.
#[derive(Drop)]
pub struct Loader {
    flash: Flash,
    base: u32,
    ended: bool,
}

// A word of data, high byte first.
fn word_of(bytes: &[u8]) -> u16
    ensures { result ≡ data_word bytes.now }
{
    let high = bytes.first().copied().unwrap_or(0);
    let low = bytes.get(1).copied().unwrap_or(0);
    256 * u16::from(high) + u16::from(low)
}

impl Loader {
    // What no lines have given.
    #[tactic(auto, using(crate::proofs::Words::Stands_erased))]
    fn new(alloc: Global) -> Result<Loader, AllocError>
        ensures { IfOk result (λ loader. StandsFor [] loader) }
    {
        Ok(Loader {
            flash: Flash::erased(alloc)?,
            base: 0,
            ended: false,
        })
    }

    // Takes the data of a record of type 00.
    fn put_data(&mut self, offset: u16, bytes: &[u8]) -> Result<(), LineFault>
        requires { self.old.ended ≡ false }
        ensures good { OnOk result (GoesOn self.old (Record 0 offset bytes.now) self.new) }
        ensures bad { IfErr result (λ fault. Refuses self.old (Record 0 offset bytes.now) fault) }
    {
        let n = bytes.len();
        if n == 0 {
            return Ok(());
        }
        let first = usize::from(offset);
        if n > SEGMENT_BYTES - first {
            return Err(LineFault::Crossing);
        }
        let at = self.base as usize + first;
        if at + n > FLASH_BYTES {
            return Err(LineFault::PastFlash);
        }
        self.flash.put(at, bytes);
        Ok(())
    }

    // Takes a record. Types 03 and 05, where a program starts, have no effect.
    fn take_record(&mut self, parsed: &RecordBytes) -> Result<(), LineFault>
        requires { self.old.ended ≡ false }
        ensures good { let bytes = parsed.now.bytes.items in OnOk result (GoesOn self.old (Record (kind_of bytes) (offset_of bytes) (data_of bytes)) self.new) }
        ensures bad { let bytes = parsed.now.bytes.items in IfErr result (λ fault. Refuses self.old (Record (kind_of bytes) (offset_of bytes) (data_of bytes)) fault) }
    {
        match parsed.kind() {
            0 => return self.put_data(parsed.offset(), parsed.data()),
            1 => self.ended = true,
            2 => self.base = 16 * u32::from(word_of(parsed.data())),
            4 => self.base = 65_536 * u32::from(word_of(parsed.data())),
            _ => {}
        }
        Ok(())
    }

    // Takes what a line says.
    fn take_parsed(&mut self, parsed: &Parsed) -> Result<(), LineFault>
        ensures good { OnOk result (GoesOn self.old (shown parsed.now) self.new) }
        ensures bad { IfErr result (λ fault. Refuses self.old (shown parsed.now) fault) }
    {
        match parsed {
            Parsed::Blank => Ok(()),
            _ if self.ended => Err(LineFault::AfterEnd),
            Parsed::Faulty(fault) => Err(*fault),
            Parsed::Record(bytes) => self.take_record(bytes),
        }
    }

    // Takes the line of this number, from 1.
    fn take_line(&mut self, alloc: Global, number: usize, text: &[u8]) -> Result<(), HexFault>
        ensures good { OnOk result (GoesOn self.old (line_of (without_cr text.now)) self.new) }
        ensures bad { IfErr result (λ e. (e ≡ HexFault.NoMemory) ⊎ ((fault : LineFault) × (e ≡ at_line fault number) × Refuses self.old (line_of (without_cr text.now)) fault)) }
    {
        let Ok(parsed) = parse(alloc, trimmed(text)) else {
            return Err(HexFault::NoMemory);
        };
        match self.take_parsed(&parsed) {
            Ok(()) => Ok(()),
            Err(fault) => Err(HexFault::AtLine {
                line: number,
                fault,
            }),
        }
    }
}

/// The flash that an Intel HEX file gives, in one pass over its bytes. Lines end with LF, one CR before it is dropped,
/// and the last LF may be missing; lines of blanks alone are skipped. Type 00 puts its bytes at base + offset, where a
/// later byte replaces an earlier one; 01 ends the file; 02 sets the base to its word times 16, 04 to its word times
/// 65,536; 03 and 05 have no effect. Bytes that are not given are 0xFF.
///
/// The first faulty line decides, and on it the first that applies in the order of `LineFault`, but `AfterEnd` before
/// all others. `NoEnd` comes where no line is faulty and none has type 01. `NoMemory` answers to want of memory.
pub fn load(alloc: Global, bytes: &[u8]) -> Result<Flash, HexFault>
    ensures sound { OnOk result (hex_fault bytes.now ≡ None) }
    ensures image { IfOk result (λ flash. flash ≡ image bytes.now) }
    ensures err { IfErr result (λ e. (e ≡ HexFault.NoMemory) ⊎ (hex_fault bytes.now ≡ Some e)) }
{
    let mut loader = Loader::new(alloc)?;
    let mut number = 0usize;
    for text in bytes.split(|b| *b == b'\n') {
        number += 1;
        loader.take_line(alloc, number, text)?;
    }
    if !loader.ended {
        return Err(HexFault::NoEnd);
    }
    Ok(loader.flash)
}
