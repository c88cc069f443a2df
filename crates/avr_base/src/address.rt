// Where the I/O registers lie.

/// The data address of I/O address 0 (ATmega128 datasheet, "I/O Memory").
pub const IO_START: u16 = 0x20;
