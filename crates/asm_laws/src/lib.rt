//! That what the disassembler prints of an instruction, of a line and of a whole program memory assembles to it: laws
//! about the definitions that assembler and disassembler are proved to compute, each the contract of a function that
//! does nothing.
#![tactic(auto)]

ghost use Rattle.std.specs.Prelude.{◌≡◌, ◌+◌, ◌<◌, ◌≤◌, if◌then◌else◌, ℕ, List, All, Ok, Some, None, false, true};
ghost use Rattle.avr_decoder.specs.Opcodes.{op_at};
ghost use Rattle.avr_decoder.specs.Words.{is_two_words};
ghost use Rattle.avr_disassembler.specs.Text.{line_of as printed_line, text_of};
ghost use Rattle.avr_disassembler.specs.Listing.{listing_of};
ghost use Rattle.ihex_loader.specs.Flash.{word_at};
ghost use Rattle.asm_words.specs.Line.{line_of};
ghost use Rattle.asm_text.specs.Source.{assembled as program, piece_of};
ghost use Rattle.asm_laws.specs.Listed.{kept_word, listed_words, listing_end};
ghost use Rattle.asm_laws.specs.Printed.{Labels, assembled, code, one_word, two_words, without_ignored, words_at};

/// The printed text of an instruction assembles to its words, whatever they are, wherever the instruction stands and
/// whatever the labels are. Of JMP and CALL the ignored bits are 0 then; the words decode to the same instruction.
pub fn instruction_law()
    ensures one { (word next at : ℕ) (labels : Labels) → word < 65536 → is_two_words word ≡ false
        → assembled (op_at word next) at labels ≡ Ok (one_word word) }
    ensures two { (word next at : ℕ) (labels : Labels) → word < 65536 → next < 65536 → is_two_words word ≡ true
        → assembled (op_at word next) at labels ≡ Ok (two_words word next) }
    ensures same { (word next : ℕ) → word < 65536 → is_two_words word ≡ true
        → op_at (without_ignored (op_at word next) word) next ≡ op_at word next }
{}

/// The printed line of an instruction, with its word address or without it, is read as exactly that: its address, its
/// mnemonic and its operands.
pub fn line_law()
    ensures at { (word next pc : ℕ) → word < 65536 → next < 65536 → pc < 65536
        → line_of (printed_line pc (op_at word next)) ≡ code (Some pc) (op_at word next) }
    ensures alone { (word next : ℕ) → word < 65536 → next < 65536
        → line_of (text_of (op_at word next)) ≡ code None (op_at word next) }
{}

/// The printed line with its address, where it stands at that address in a source and there is room, has the
/// instruction's words: whatever its number and the labels are.
pub fn one_line_law()
    ensures { (word next pc number : ℕ) (labels : Labels) → word < 65536 → next < 65536 → pc + (if is_two_words word then 2 else 1) ≤ 65536
        → piece_of labels number pc (line_of (printed_line pc (op_at word next))) ≡ Ok (Some (words_at word next)) }
{}

/// The whole listing of the first words of a flash is a source that assembles to these words: as they are, but of JMP
/// and CALL with the ignored bits 0, and where the last listed word begins an instruction of two, with its second word
/// too. That one is in the flash, where no instruction of two words is listed at its last word, 0xFFFF. These words
/// have the same listing.
pub fn listing_law()
    ensures words { (flash : List ℕ) (count : ℕ) → All (λ b. b < 256) flash → listing_end (word_at flash) count ≤ 65536
        → program (listing_of (word_at flash) count) ≡ Ok (listed_words (word_at flash) count) }
    ensures same { (flash : List ℕ) (count : ℕ) → All (λ b. b < 256) flash → listing_end (word_at flash) count ≤ 65536
        → listing_of (kept_word (word_at flash)) count ≡ listing_of (word_at flash) count }
{}
