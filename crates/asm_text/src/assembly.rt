// The program of a source.
ghost use Rattle.std.specs.Prelude.{◌≡◌, ◌≤◌, ◌⊎◌, length, IfErr, IfOk};
ghost use Rattle.asm_text.specs.Source.{assembled};

use crate::fault::AsmFault;
use crate::program::Program;
use crate::source::{labels_of, pieces_of};
use asm_words::read_line;
use std::alloc::Global;

/// The program of a source in assembly, from word address 0 on, or the fault that decides.
pub fn assemble(alloc: Global, text: &[u8]) -> Result<Vec<u16>, AsmFault>
    ensures ok { IfOk result (λ words. assembled text.now ≡ Ok words.items) }
    ensures err { IfErr result (λ e. (e ≡ AsmFault.NoMemory) ⊎ (assembled text.now ≡ Err e)) }
    // so they fit into the flash
    ensures few { IfOk result (λ words. length words.items ≤ 65536) }
{
    let pieces = pieces_of(alloc, text)?;
    let labels = labels_of(alloc, &pieces)?;
    let mut program = Program::new(alloc);
    for (i, piece) in pieces.iter().enumerate() {
        match program.take(&labels, i, read_line(piece)) {
            Ok(()) => {}
            Err(fault) => return Err(fault),
        }
    }
    program.finish()
}
