// Each word as its text, assembled again.
use arrayvec::ArrayString;
use asm_text::assemble;
use avr_decoder::{Op, decode, width};
use avr_disassembler::text;
use sim_io::Sink;
use std::alloc::Global;
use stored_cases::{Failed, Tally, write_line};

// The word behind each one.
const NEXT: u16 = 0x1234;

// The first word that an assembler gives: JMP and CALL have six ignored bits, which it clears.
fn canonical(word: u16) -> u16 {
    match decode(word, NEXT) {
        Op::Jmp { .. } | Op::Call { .. } => word & 0xFE0E,
        _ => word,
    }
}

// Whether the text of a word is assembled to it.
fn comes_back(alloc: Global, word: u16) -> bool {
    let mut out = ArrayString::<32>::new();
    text(decode(word, NEXT), &mut out);
    let Ok(words) = assemble(alloc, out.as_str().as_bytes()) else {
        return false;
    };
    match words.as_slice() {
        [first] => *first == word && width(word) == 1,
        [first, second] => *first == canonical(word) && *second == NEXT && width(word) == 2,
        _ => false,
    }
}

/// Assembles the text of each of the 65,536 words; one that does not come back is written.
pub fn do_all_words<O: Sink>(alloc: Global, out: &mut O) -> Result<(), Failed> {
    let mut tally = Tally::none();
    for word in 0..=0xFFFFu16 {
        let right = comes_back(alloc, word);
        if !right {
            write_line(
                format!(in alloc; "{word:04X} does not come back")?.as_str(),
                out,
            )?;
        }
        tally.count(right);
    }
    tally.tell(alloc, "all words", out)
}
