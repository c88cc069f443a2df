// Bits of the timers, of USART0 and of the serial peripheral interface by the datasheet's names (ATmega128 datasheet,
// "Register Summary"): the byte in which that bit alone, or these bits alone, are set. The registers themselves, and all
// other bits, have their names in `board_io`.

// TCCR0 and TCCR2. Timers of one width name their bits alike, so the timer's number is left out.
pub const FOC: u8 = 0x80; // bit 7

pub const WGM0: u8 = 0x40; // bit 6

pub const COM: u8 = 0x30; // COM1:0, bits 5 and 4

pub const WGM1: u8 = 0x08; // bit 3

// TCCR1A and TCCR3A.
pub const COM_ABC: u8 = 0xFC; // COMA1:0, COMB1:0 and COMC1:0, bits 7 to 2

// TCCR1B and TCCR3B.
pub const ICNC: u8 = 0x80; // bit 7

pub const ICES: u8 = 0x40; // bit 6

// TCCR1C and TCCR3C.
pub const FOC_ABC: u8 = 0xE0; // FOCA, FOCB and FOCC, bits 7 to 5

// UCSR0A.
pub const RXC0: u8 = 0x80; // bit 7

pub const TXC0: u8 = 0x40; // bit 6

pub const UDRE0: u8 = 0x20; // bit 5

pub const DOR0: u8 = 0x08; // bit 3

pub const U2X0: u8 = 0x02; // bit 1

pub const MPCM0: u8 = 0x01; // bit 0

// UCSR0B.
pub const RXCIE0: u8 = 0x80; // bit 7

pub const TXCIE0: u8 = 0x40; // bit 6

pub const UDRIE0: u8 = 0x20; // bit 5

pub const RXEN0: u8 = 0x10; // bit 4

pub const TXEN0: u8 = 0x08; // bit 3

pub const UCSZ02: u8 = 0x04; // bit 2

pub const UCSR0B_KEPT: u8 = 0xF9; // all but UCSZ02 and RXB80, bits 2 and 1

// UCSR0C.
pub const UMSEL0_UPM0: u8 = 0x70; // UMSEL0 and UPM01:0, bits 6 to 4

pub const USBS0: u8 = 0x08; // bit 3

pub const UCSZ0: u8 = 0x06; // UCSZ01:0, bits 2 and 1

pub const UCSR0C_KEPT: u8 = 0x0F; // USBS0, UCSZ01:0 and UCPOL0, bits 3 to 0

// SPCR.
pub const SPIE: u8 = 0x80; // bit 7

pub const SPE: u8 = 0x40; // bit 6

pub const MSTR: u8 = 0x10; // bit 4

// SPSR.
pub const SPIF: u8 = 0x80; // bit 7

pub const WCOL: u8 = 0x40; // bit 6

pub const SPI2X: u8 = 0x01; // bit 0
