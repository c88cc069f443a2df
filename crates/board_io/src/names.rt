// Registers and bits by the datasheet's names (ATmega128 datasheet, "Register Summary"): the data address of each
// register that the code speaks of, and of its bits the byte in which that bit alone is set. `RULES` has all registers.
// IN, OUT, SBI, CBI, SBIC and SBIS name a register below 0x60 by its I/O address, which is 0x20 less.

pub const PORTE: u8 = 0x23; // I/O address 0x03

pub const ADEN: u8 = 0x80; // ADCSRA, bit 7

pub const ADSC: u8 = 0x40; // ADCSRA, bit 6

pub const ACIE: u8 = 0x08; // ACSR, bit 3

pub const ACIC: u8 = 0x04; // ACSR, bit 2

pub const PORTD: u8 = 0x32; // I/O address 0x12

pub const PORTC: u8 = 0x35; // I/O address 0x15

pub const DDRB: u8 = 0x37; // I/O address 0x17

pub const PORTB: u8 = 0x38; // I/O address 0x18

pub const PORTA: u8 = 0x3B; // I/O address 0x1B

pub const EERIE: u8 = 0x08; // EECR, bit 3

pub const EEMWE: u8 = 0x04; // EECR, bit 2

pub const EEWE: u8 = 0x02; // EECR, bit 1

pub const EERE: u8 = 0x01; // EECR, bit 0

pub const TSM: u8 = 0x80; // SFIOR, bit 7

pub const PSR0: u8 = 0x02; // SFIOR, bit 1

pub const PSR321: u8 = 0x01; // SFIOR, bit 0

pub const WDCE: u8 = 0x10; // WDTCR, bit 4

pub const WDE: u8 = 0x08; // WDTCR, bit 3

pub const AS0: u8 = 0x08; // ASSR, bit 3

pub const MCUCSR: u8 = 0x54; // I/O address 0x34

pub const JTD: u8 = 0x80; // MCUCSR, bit 7

pub const PORF: u8 = 0x01; // MCUCSR, bit 0

pub const MCUCR: u8 = 0x55; // I/O address 0x35

pub const SRE: u8 = 0x80; // MCUCR, bit 7

pub const SE: u8 = 0x20; // MCUCR, bit 5

pub const IVSEL: u8 = 0x02; // MCUCR, bit 1

pub const OCF2: u8 = 0x80; // TIFR, bit 7

pub const TOV2: u8 = 0x40; // TIFR, bit 6

pub const ICF1: u8 = 0x20; // TIFR, bit 5

pub const OCF1A: u8 = 0x10; // TIFR, bit 4

pub const OCF1B: u8 = 0x08; // TIFR, bit 3

pub const TOV1: u8 = 0x04; // TIFR, bit 2

pub const OCF0: u8 = 0x02; // TIFR, bit 1

pub const TOV0: u8 = 0x01; // TIFR, bit 0

pub const TIMSK: u8 = 0x57; // I/O address 0x37

pub const OCIE2: u8 = 0x80; // TIMSK, bit 7

pub const TOIE2: u8 = 0x40; // TIMSK, bit 6

pub const TICIE1: u8 = 0x20; // TIMSK, bit 5

pub const OCIE1A: u8 = 0x10; // TIMSK, bit 4

pub const OCIE1B: u8 = 0x08; // TIMSK, bit 3

pub const TOIE1: u8 = 0x04; // TIMSK, bit 2

pub const OCIE0: u8 = 0x02; // TIMSK, bit 1

pub const TOIE0: u8 = 0x01; // TIMSK, bit 0

pub const XDIVEN: u8 = 0x80; // XDIV, bit 7

pub const PORTF: u8 = 0x62;

pub const PORTG: u8 = 0x65;

pub const TWSR: u8 = 0x71;

pub const TWAR: u8 = 0x72;

pub const TWDR: u8 = 0x73;

pub const TWEN: u8 = 0x04; // TWCR, bit 2

pub const ICF3: u8 = 0x20; // ETIFR, bit 5

pub const OCF3A: u8 = 0x10; // ETIFR, bit 4

pub const OCF3B: u8 = 0x08; // ETIFR, bit 3

pub const TOV3: u8 = 0x04; // ETIFR, bit 2

pub const OCF3C: u8 = 0x02; // ETIFR, bit 1

pub const OCF1C: u8 = 0x01; // ETIFR, bit 0

pub const ETIMSK: u8 = 0x7D;

pub const TICIE3: u8 = 0x20; // ETIMSK, bit 5

pub const OCIE3A: u8 = 0x10; // ETIMSK, bit 4

pub const OCIE3B: u8 = 0x08; // ETIMSK, bit 3

pub const TOIE3: u8 = 0x04; // ETIMSK, bit 2

pub const OCIE3C: u8 = 0x02; // ETIMSK, bit 1

pub const OCIE1C: u8 = 0x01; // ETIMSK, bit 0

pub const RXEN1: u8 = 0x10; // UCSR1B, bit 4

pub const TXEN1: u8 = 0x08; // UCSR1B, bit 3

pub const UCSR1A: u8 = 0x9B;

pub const UCSR1C: u8 = 0x9D;

// The word addresses of the interrupt vectors (ATmega128 datasheet, "Interrupt Vectors in ATmega128").
pub const TIMER2_COMP: u16 = 0x12;

pub const TIMER2_OVF: u16 = 0x14;

pub const TIMER1_COMPA: u16 = 0x18;

pub const TIMER1_COMPB: u16 = 0x1A;

pub const TIMER1_OVF: u16 = 0x1C;

pub const TIMER0_COMP: u16 = 0x1E;

pub const TIMER0_OVF: u16 = 0x20;

pub const SPI_STC: u16 = 0x22;

pub const USART0_RX: u16 = 0x24;

pub const USART0_UDRE: u16 = 0x26;

pub const USART0_TX: u16 = 0x28;

pub const TIMER1_COMPC: u16 = 0x30;

pub const TIMER3_COMPA: u16 = 0x34;

pub const TIMER3_COMPB: u16 = 0x36;

pub const TIMER3_COMPC: u16 = 0x38;

pub const TIMER3_OVF: u16 = 0x3A;
