// The regions of the data space behind r0 to r31 (ATmega128 datasheet, "SRAM Data Memory").

/// How many I/O registers there are, up to data address 0xFF. The first is at `IO_START` of `avr_base`.
pub const IO_COUNT: usize = 224;

/// The data address of the first byte of the internal SRAM.
pub const SRAM_START: u16 = 0x0100;

/// The data address of its last byte.
pub const SRAM_LAST: u16 = 0x10FF;

/// How many bytes it has.
pub const SRAM_LEN: usize = 4_096;
