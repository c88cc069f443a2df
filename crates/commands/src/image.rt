// `asm`: the image of a program.
ghost use Rattle.std.specs.Prelude.{◌≤◌, length};
ghost use Rattle.ihex_loader.specs.Hex.{hex_of};
ghost use Rattle.command_plans.specs.Ends.{stream};
ghost use Rattle.command_plans.specs.Parts.{Written};

use command_plans::Trouble;
use ihex_loader::hex_text;
use sim_io::{Sink, write_all};
use std::alloc::Global;

/// Writes a program as an image.
pub fn write_program<'n, O: Sink>(
    alloc: Global,
    words: &[u16],
    out: &mut O,
) -> Result<(), Trouble<'n>>
    requires { length words.now ≤ 65536 }
    ensures { Written (hex_of words.now) (stream (O.taken out.old) (O.faults out.old)) (stream (O.taken out.new) (O.faults out.new)) result }
{
    let Ok(text) = hex_text(alloc, words) else {
        return Err(Trouble::NoMemory);
    };
    match write_all(out, text.as_slice()) {
        Ok(()) => Ok(()),
        Err(_) => Err(Trouble::OutFailed),
    }
}
