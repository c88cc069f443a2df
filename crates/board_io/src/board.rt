// The board and what its other parts read of it.
ghost use Rattle.std.specs.Prelude.{◌≡◌, ◌≤◌, map, slice_set};
ghost use Rattle.air_base.specs.declared.bounds.TheConstants.{LONGEST_BYTE};
ghost use Rattle.std.specs.List.{range_with_len};
ghost use Rattle.board_io.specs.Table.{start_of};

use crate::names::{DDRB, MCUCR, MCUCSR, PORF, PORTB, SE, TWAR, TWDR, TWSR, UCSR1A, UCSR1C};
use avr_timers::{Prescaler, Timer8, Timer16};
use device_base::any_bit;
use serial_ports::{Radio, Spi, Usart};

// The bits of MCUCR that choose the sleep mode. Idle has none of them set.
const SLEEP_MODE: u8 = 0x1C;

// The pin of port B that selects the radio.
const RADIO_PIN: u8 = 0x01;

/// What SLEEP would do (ATmega128 datasheet, "MCU Control Register - MCUCR").
#[derive(Clone, Copy)]
pub enum Sleep {
    /// SE is clear: nothing.
    Off,
    /// SE is set, and the mode is idle.
    Idle,
    /// SE is set, and the mode is another.
    Other,
}

/// All of a node but its core and its SRAM: the devices, and the registers that only hold a byte.
#[derive(Drop)]
pub struct Board {
    /// What the registers hold that no device has, by data address.
    pub kept: [u8; 256],
    /// Timer 0.
    pub t0: Timer8,
    /// Timer 1.
    pub t1: Timer16,
    /// Timer 2.
    pub t2: Timer8,
    /// Timer 3.
    pub t3: Timer16,
    /// USART0.
    pub usart: Usart,
    /// The serial peripheral interface.
    pub spi: Spi,
    /// The radio behind it.
    pub radio: Radio,
}

// The bytes with this one at an address.
fn with_byte(mut kept: [u8; 256], at: u8, byte: u8) -> [u8; 256]
    ensures { result ≡ slice_set kept at byte }
{
    kept[usize::from(at)] = byte;
    kept
}

// What the registers that no device has hold after reset.
fn starts() -> [u8; 256]
    ensures { result ≡ map start_of (range_with_len 0 256) }
{
    let kept = with_byte([0; 256], MCUCSR, PORF);
    let kept = with_byte(kept, TWSR, 0xF8);
    let kept = with_byte(kept, TWAR, 0xFE);
    let kept = with_byte(kept, TWDR, 0xFF);
    let kept = with_byte(kept, UCSR1A, 0x20);
    with_byte(kept, UCSR1C, 0x06)
}

impl Board {
    ghost use Rattle.board_io.specs.Board.{kept_at, reset_board, selected, sleep_mode};

    /// The board after reset, with the byte time of its radio in cycles, at most 4,096.
    pub fn new(byte_time: u64) -> Board
        requires { byte_time ≤ LONGEST_BYTE }
        ensures { result ≡ reset_board byte_time }
    {
        Board {
            kept: starts(),
            t0: Timer8::new(Prescaler::Own),
            t1: Timer16::new(),
            t2: Timer8::new(Prescaler::Shared),
            t3: Timer16::new(),
            usart: Usart::new(),
            spi: Spi::new(),
            radio: Radio::new(byte_time),
        }
    }

    /// The byte of a register that no device has, by its data address.
    pub(crate) fn kept(&self, at: u8) -> u8
        ensures { result ≡ kept_at at self.now }
    {
        self.kept[usize::from(at)]
    }

    /// Whether the radio is selected: bit 0 of port B is an output and low.
    pub fn selected(&self) -> bool
        ensures { result ≡ selected self.now }
    {
        any_bit(self.kept(DDRB), RADIO_PIN) && !any_bit(self.kept(PORTB), RADIO_PIN)
    }

    /// What SLEEP would do.
    pub fn sleep_mode(&self) -> Sleep
        ensures { result ≡ sleep_mode self.now }
    {
        let control = self.kept(MCUCR);
        if !any_bit(control, SE) {
            Sleep::Off
        } else if any_bit(control, SLEEP_MODE) {
            Sleep::Other
        } else {
            Sleep::Idle
        }
    }
}
