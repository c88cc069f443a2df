// `disasm`: the listing of an image.
ghost use Rattle.std.specs.Prelude.{◌≡◌, ◌≤◌, ◌<◌, ◌+◌, ◌++◌, if◌then◌else◌};
ghost use Rattle.arrayvec.specs.ArrayString.{array_string_len};
ghost use Rattle.avr_decoder.specs.Words.{is_two_words};
ghost use Rattle.avr_disassembler.specs.Listing.{instruction_line};
ghost use Rattle.ihex_loader.specs.Flash.{word_at};
ghost use Rattle.commands.specs.Listing.{listing};
ghost use Rattle.command_plans.specs.Ends.{stream};
ghost use Rattle.command_plans.specs.Parts.{Written};

use arrayvec::ArrayString;
use avr_decoder::{decode, width};
use avr_disassembler::put_line;
use command_plans::Trouble;
use ihex_loader::Flash;
use sim_io::{Sink, make_room, write_all};

// The bytes of a page, and the room that a line needs: the disassembler's, of at most 28 bytes, and LF.
const PAGE_BYTES: usize = 16_384;

const LINE_BYTES: usize = 29;

// Appends the line of the instruction at the word address `pc`, and answers how many words it takes.
#[tactic(auto, unfolding(avr_disassembler::specs::Listing::instruction_line))]
fn put_instruction(flash: &Flash, pc: u16, page: &mut ArrayString<PAGE_BYTES>) -> u8
    requires { array_string_len page.old + LINE_BYTES ≤ PAGE_BYTES }
    ensures line { page.new.bytes ≡ page.old.bytes ++ instruction_line (word_at flash.now.bytes) pc }
    ensures words { result ≡ (if is_two_words (word_at flash.now.bytes pc) then 2 else 1) }
{
    let word = flash.word(pc);
    put_line(pc, decode(word, flash.word(pc.wrapping_add(1))), page);
    page.push_str("\n");
    width(word)
}

/// Writes one line for each instruction from word 0 on, while the image gave a byte of its first word or a later one.
pub fn write_listing<'n, O: Sink>(flash: &Flash, out: &mut O) -> Result<(), Trouble<'n>>
    ensures { Written (listing flash.now) (stream (O.taken out.old) (O.faults out.old)) (stream (O.taken out.new) (O.faults out.new)) result }
{
    let mut page = ArrayString::new();
    let mut pc = 0;
    while 2 * pc < flash.used() {
        let Ok(()) = make_room(&mut page, LINE_BYTES, out) else {
            return Err(Trouble::OutFailed);
        };
        pc += u32::from(put_instruction(flash, pc as u16, &mut page));
    }
    match write_all(out, page.as_str().as_bytes()) {
        Ok(()) => Ok(()),
        Err(_) => Err(Trouble::OutFailed),
    }
}
