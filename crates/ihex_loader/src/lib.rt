//! Intel HEX text and the flash of an ATmega128 (Intel, Hexadecimal Object File Format Specification, record types 00
//! to 05): from text to flash, the accepted image byte for byte, or the first thing that is wrong with it and its line;
//! and from words of flash to the text of a file.
#![tactic(auto)]

mod fault;
mod flash;
mod law;
mod line;
mod loader;
mod record;
mod rows;
mod text;

pub use fault::{HexFault, LineFault};
pub use flash::{Flash, ProgramMemory, flash_of};
pub use law::{accepted_image_is_determined, image_has_bytes, written_record_is_read};
pub use loader::load;
pub use text::hex_text;
