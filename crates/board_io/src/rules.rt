// The rules of the I/O registers, by data address.
ghost use Rattle.std.specs.Prelude.{◌≡◌, ◌≤◌};
ghost use Rattle.board_io.specs.Table.{rule_of};

use crate::names::{
    ACIC, ACIE, ADEN, ADSC, AS0, EEMWE, EERE, EERIE, EEWE, PORTA, PORTB, PORTC, PORTD, PORTE,
    PORTF, PORTG, PSR0, PSR321, RXEN1, TICIE1, TICIE3, TSM, TWEN, TXEN1, XDIVEN,
};
use avr_base::StopCause;
use avr_timers::{Channel, Reg8, Reg16};
use serial_ports::{SpiReg, UsartReg};

/// How a read and a write of an I/O register go (ATmega128 datasheet, the register descriptions).
#[derive(Clone, Copy)]
pub enum Rule {
    /// No register: every access stops.
    Reserved,
    /// The pins of a port, PINx: they read the register at this data address, PORTx, as by its pull-up, and are not
    /// written.
    Pin(u8),
    /// A byte that is kept in the bits of this mask and has no effect; the other bits read 0.
    Kept(u8),
    /// A byte that is kept in the bits of the mask, which is the last part, and has no effect. A write with one of the
    /// bits of the first part set stops by the cause.
    Guarded(u8, StopCause, u8),
    /// WDTCR.
    WatchdogControl,
    /// MCUCSR.
    ResetFlags,
    /// MCUCR.
    CpuControl,
    /// TIFR.
    TimerFlags,
    /// ETIFR.
    ExtendedTimerFlags,
    /// A register of timer 0.
    Timer0(Reg8),
    /// A register of timer 1.
    Timer1(Reg16),
    /// A register of timer 2.
    Timer2(Reg8),
    /// A register of timer 3.
    Timer3(Reg16),
    /// A register of USART0.
    Usart0(UsartReg),
    /// A register of the serial peripheral interface.
    Spi(SpiReg),
}

/// The data address of the last rule of the table. Past it all are reserved.
pub(crate) const LAST: u16 = 0x9F;

// The rules of the data addresses up to `LAST`, in the order of docs/MACHINE.md. It begins at 0, so that a look-up does
// not subtract, though below 0x20 stand the general registers, which are the core's.
static RULES: [Rule; 160] = [
    // 0x00 to 0x1F
    Rule::Reserved,
    Rule::Reserved,
    Rule::Reserved,
    Rule::Reserved,
    Rule::Reserved,
    Rule::Reserved,
    Rule::Reserved,
    Rule::Reserved,
    Rule::Reserved,
    Rule::Reserved,
    Rule::Reserved,
    Rule::Reserved,
    Rule::Reserved,
    Rule::Reserved,
    Rule::Reserved,
    Rule::Reserved,
    Rule::Reserved,
    Rule::Reserved,
    Rule::Reserved,
    Rule::Reserved,
    Rule::Reserved,
    Rule::Reserved,
    Rule::Reserved,
    Rule::Reserved,
    Rule::Reserved,
    Rule::Reserved,
    Rule::Reserved,
    Rule::Reserved,
    Rule::Reserved,
    Rule::Reserved,
    Rule::Reserved,
    Rule::Reserved,
    Rule::Pin(PORTF), // 0x20 PINF
    Rule::Pin(PORTE), // 0x21 PINE
    Rule::Kept(0xFF), // 0x22 DDRE
    Rule::Kept(0xFF), // 0x23 PORTE
    Rule::Kept(0x00), // 0x24 ADCL
    Rule::Kept(0x00), // 0x25 ADCH
    Rule::Guarded(ADEN | ADSC, StopCause::Adc, 0xFF), // 0x26 ADCSRA
    Rule::Kept(0xFF), // 0x27 ADMUX
    Rule::Guarded(ACIE | ACIC, StopCause::Comparator, 0xC3), // 0x28 ACSR
    Rule::Usart0(UsartReg::BaudL), // 0x29 UBRR0L
    Rule::Usart0(UsartReg::ControlB), // 0x2A UCSR0B
    Rule::Usart0(UsartReg::StatusA), // 0x2B UCSR0A
    Rule::Usart0(UsartReg::Udr), // 0x2C UDR0
    Rule::Spi(SpiReg::Control), // 0x2D SPCR
    Rule::Spi(SpiReg::Status), // 0x2E SPSR
    Rule::Spi(SpiReg::Spdr), // 0x2F SPDR
    Rule::Pin(PORTD), // 0x30 PIND
    Rule::Kept(0xFF), // 0x31 DDRD
    Rule::Kept(0xFF), // 0x32 PORTD
    Rule::Pin(PORTC), // 0x33 PINC
    Rule::Kept(0xFF), // 0x34 DDRC
    Rule::Kept(0xFF), // 0x35 PORTC
    Rule::Pin(PORTB), // 0x36 PINB
    Rule::Kept(0xFF), // 0x37 DDRB
    Rule::Kept(0xFF), // 0x38 PORTB
    Rule::Pin(PORTA), // 0x39 PINA
    Rule::Kept(0xFF), // 0x3A DDRA
    Rule::Kept(0xFF), // 0x3B PORTA
    Rule::Guarded(EERIE | EEMWE | EEWE | EERE, StopCause::Eeprom, 0x00), // 0x3C EECR
    Rule::Kept(0xFF), // 0x3D EEDR
    Rule::Kept(0xFF), // 0x3E EEARL
    Rule::Kept(0xFF), // 0x3F EEARH
    Rule::Guarded(TSM | PSR0 | PSR321, StopCause::Prescaler, 0x0C), // 0x40 SFIOR
    Rule::WatchdogControl, // 0x41 WDTCR
    Rule::Kept(0xFF), // 0x42 OCDR
    Rule::Timer2(Reg8::Compare), // 0x43 OCR2
    Rule::Timer2(Reg8::Count), // 0x44 TCNT2
    Rule::Timer2(Reg8::Control), // 0x45 TCCR2
    Rule::Timer1(Reg16::IcrL), // 0x46 ICR1L
    Rule::Timer1(Reg16::IcrH), // 0x47 ICR1H
    Rule::Timer1(Reg16::CompL(Channel::B)), // 0x48 OCR1BL
    Rule::Timer1(Reg16::CompH(Channel::B)), // 0x49 OCR1BH
    Rule::Timer1(Reg16::CompL(Channel::A)), // 0x4A OCR1AL
    Rule::Timer1(Reg16::CompH(Channel::A)), // 0x4B OCR1AH
    Rule::Timer1(Reg16::CountL), // 0x4C TCNT1L
    Rule::Timer1(Reg16::CountH), // 0x4D TCNT1H
    Rule::Timer1(Reg16::ControlB), // 0x4E TCCR1B
    Rule::Timer1(Reg16::ControlA), // 0x4F TCCR1A
    Rule::Guarded(AS0, StopCause::AsyncTimer, 0x00), // 0x50 ASSR
    Rule::Timer0(Reg8::Compare), // 0x51 OCR0
    Rule::Timer0(Reg8::Count), // 0x52 TCNT0
    Rule::Timer0(Reg8::Control), // 0x53 TCCR0
    Rule::ResetFlags, // 0x54 MCUCSR
    Rule::CpuControl, // 0x55 MCUCR
    Rule::TimerFlags, // 0x56 TIFR
    Rule::Guarded(TICIE1, StopCause::InputCapture, 0xFF), // 0x57 TIMSK
    Rule::Kept(0x00), // 0x58 EIFR
    Rule::Guarded(0xFF, StopCause::ExternalInterrupt, 0x00), // 0x59 EIMSK
    Rule::Kept(0xFF), // 0x5A EICRB
    Rule::Reserved, // 0x5B RAMPZ, the core's
    Rule::Guarded(XDIVEN, StopCause::ClockDivision, 0xFF), // 0x5C XDIV
    Rule::Reserved, // 0x5D SPL, the core's
    Rule::Reserved, // 0x5E SPH, the core's
    Rule::Reserved, // 0x5F SREG, the core's
    Rule::Reserved, // 0x60
    Rule::Kept(0xFF), // 0x61 DDRF
    Rule::Kept(0xFF), // 0x62 PORTF
    Rule::Pin(PORTG), // 0x63 PING
    Rule::Kept(0x1F), // 0x64 DDRG
    Rule::Kept(0x1F), // 0x65 PORTG
    Rule::Reserved, // 0x66
    Rule::Reserved, // 0x67
    Rule::Kept(0x00), // 0x68 SPMCSR
    Rule::Reserved, // 0x69
    Rule::Kept(0xFF), // 0x6A EICRA
    Rule::Reserved, // 0x6B
    Rule::Kept(0xFF), // 0x6C XMCRB
    Rule::Kept(0xFF), // 0x6D XMCRA
    Rule::Reserved, // 0x6E
    Rule::Kept(0xFF), // 0x6F OSCCAL
    Rule::Kept(0xFF), // 0x70 TWBR
    Rule::Kept(0xFF), // 0x71 TWSR
    Rule::Kept(0xFF), // 0x72 TWAR
    Rule::Kept(0xFF), // 0x73 TWDR
    Rule::Guarded(TWEN, StopCause::Twi, 0xFF), // 0x74 TWCR
    Rule::Reserved, // 0x75
    Rule::Reserved, // 0x76
    Rule::Reserved, // 0x77
    Rule::Timer1(Reg16::CompL(Channel::C)), // 0x78 OCR1CL
    Rule::Timer1(Reg16::CompH(Channel::C)), // 0x79 OCR1CH
    Rule::Timer1(Reg16::ControlC), // 0x7A TCCR1C
    Rule::Reserved, // 0x7B
    Rule::ExtendedTimerFlags, // 0x7C ETIFR
    Rule::Guarded(TICIE3, StopCause::InputCapture, 0x3F), // 0x7D ETIMSK
    Rule::Reserved, // 0x7E
    Rule::Reserved, // 0x7F
    Rule::Timer3(Reg16::IcrL), // 0x80 ICR3L
    Rule::Timer3(Reg16::IcrH), // 0x81 ICR3H
    Rule::Timer3(Reg16::CompL(Channel::C)), // 0x82 OCR3CL
    Rule::Timer3(Reg16::CompH(Channel::C)), // 0x83 OCR3CH
    Rule::Timer3(Reg16::CompL(Channel::B)), // 0x84 OCR3BL
    Rule::Timer3(Reg16::CompH(Channel::B)), // 0x85 OCR3BH
    Rule::Timer3(Reg16::CompL(Channel::A)), // 0x86 OCR3AL
    Rule::Timer3(Reg16::CompH(Channel::A)), // 0x87 OCR3AH
    Rule::Timer3(Reg16::CountL), // 0x88 TCNT3L
    Rule::Timer3(Reg16::CountH), // 0x89 TCNT3H
    Rule::Timer3(Reg16::ControlB), // 0x8A TCCR3B
    Rule::Timer3(Reg16::ControlA), // 0x8B TCCR3A
    Rule::Timer3(Reg16::ControlC), // 0x8C TCCR3C
    Rule::Reserved, // 0x8D
    Rule::Reserved, // 0x8E
    Rule::Reserved, // 0x8F
    Rule::Usart0(UsartReg::BaudH), // 0x90 UBRR0H
    Rule::Reserved, // 0x91
    Rule::Reserved, // 0x92
    Rule::Reserved, // 0x93
    Rule::Reserved, // 0x94
    Rule::Usart0(UsartReg::ControlC), // 0x95 UCSR0C
    Rule::Reserved, // 0x96
    Rule::Reserved, // 0x97
    Rule::Kept(0xFF), // 0x98 UBRR1H
    Rule::Kept(0xFF), // 0x99 UBRR1L
    Rule::Guarded(RXEN1 | TXEN1, StopCause::Usart1, 0xFF), // 0x9A UCSR1B
    Rule::Kept(0xFF), // 0x9B UCSR1A
    Rule::Kept(0xFF), // 0x9C UDR1
    Rule::Kept(0xFF), // 0x9D UCSR1C
    Rule::Reserved, // 0x9E
    Rule::Reserved, // 0x9F
];

/// The rule of a data address of the table.
#[inline]
pub(crate) fn listed_rule(at: u16) -> Rule
    requires { at ≤ 0x9F }
    ensures { result ≡ rule_of at }
{
    RULES[usize::from(at)]
}

/// The rule of a data address below 0x0100.
pub(crate) fn rule_at(at: u8) -> Rule
    ensures { result ≡ rule_of at }
{
    let at = u16::from(at);
    if at > LAST {
        return Rule::Reserved;
    }
    listed_rule(at)
}
