// What a board is saved and restored by.
ghost use Rattle.std.specs.Prelude.{◌≡◌, ◌≤◌, ◌+◌, None, Some, IfSome, is_some, length};
ghost use Rattle.air_base.specs.Bounds.{LAST_CYCLE};
ghost use Rattle.air_base.specs.declared.bounds.TheConstants.{LONGEST_BYTE};
ghost use Rattle.std.specs.List.{list_all};
ghost use Rattle.board_io.specs.Kept.{first_refused, is_io, is_kept, kept_bits, kept_of};

use crate::names::{JTD, PORF};
use crate::registers::MCUCR_KEPT;
use crate::rules::{Rule, rule_at};
use crate::{Board, Clock, ClockedBoard, LaggingBoard};
use avr_base::IO_START;
use avr_timers::{Prescaler, Timer8, Timer16};
use data_space::IO_COUNT;
use device_base::{DEVICE_NUMBERS, PORT_NUMBERS, TIMER_NUMBERS, part, put_part};
use serial_ports::{Radio, Spi, Usart};

impl Rule {
    // Whether the board keeps the byte of the register.
    fn is_kept(self) -> bool
        ensures { result ≡ is_kept self }
    {
        match self {
            Rule::Kept(_) | Rule::Guarded(..) | Rule::ResetFlags | Rule::CpuControl => true,
            Rule::Reserved
            | Rule::Pin(_)
            | Rule::WatchdogControl
            | Rule::TimerFlags
            | Rule::ExtendedTimerFlags
            | Rule::Timer0(_)
            | Rule::Timer1(_)
            | Rule::Timer2(_)
            | Rule::Timer3(_)
            | Rule::Usart0(_)
            | Rule::Spi(_) => false,
        }
    }

    // The bits that a kept byte can have.
    fn kept_bits(self) -> u8
        ensures { result ≡ kept_bits self }
    {
        match self {
            Rule::Kept(mask) => mask,
            Rule::Guarded(bits, _, mask) => mask & (255 - bits),
            Rule::ResetFlags => JTD | PORF,
            Rule::CpuControl => MCUCR_KEPT,
            Rule::Reserved
            | Rule::Pin(_)
            | Rule::WatchdogControl
            | Rule::TimerFlags
            | Rule::ExtendedTimerFlags
            | Rule::Timer0(_)
            | Rule::Timer1(_)
            | Rule::Timer2(_)
            | Rule::Timer3(_)
            | Rule::Usart0(_)
            | Rule::Spi(_) => 0,
        }
    }
}

// Whether a byte can be the one that the board keeps at a data address.
#[tactic(auto, unfolding(crate::specs::Kept::is_io))]
fn is_io(at: u8, byte: u8) -> bool
    ensures { result ≡ is_io at byte }
{
    byte & rule_at(at).kept_bits() == byte
}

/// The place of the first of the 224 bytes that cannot be the one that the board keeps at its address: the place 0 is
/// data address 0x20. A bit is to be 0 where no register is kept, where a write of 1 is refused, and where it is never
/// kept.
pub fn first_refused(io: &[u8]) -> Option<usize>
    requires { length io.now ≡ IO_COUNT }
    ensures { result ≡ first_refused io.now }
{
    for place in 0..IO_COUNT {
        if !is_io(IO_START as u8 + place as u8, io[place]) {
            return Some(place);
        }
    }
    None
}

// What a board keeps whose bytes from data address 0x20 on these are.
fn kept_of(io: &[u8]) -> [u8; 256]
    requires { length io.now ≡ IO_COUNT }
    ensures { result ≡ kept_of io.now }
{
    let mut kept = [0; 256];
    kept[usize::from(IO_START)..].copy_from_slice(io);
    kept
}

impl Board {
    ghost use Rattle.board_io.specs.Kept.{io_at};
    ghost use Rattle.board_io.specs.Saved.{IsRestored, fits, numbers_of, ports_fit, timers_fit};

    /// The numbers of its devices: those of timers 0, 2, 1 and 3, of USART0, of the serial peripheral interface and of
    /// the radio, each in the order of its `numbers`.
    pub fn numbers(&self) -> [u64; DEVICE_NUMBERS]
        ensures { result ≡ numbers_of self.now }
    {
        let mut all = [0; DEVICE_NUMBERS];
        put_part(&mut all, 0, &self.t0.numbers());
        put_part(&mut all, 6, &self.t2.numbers());
        put_part(&mut all, 12, &self.t1.numbers());
        put_part(&mut all, 25, &self.t3.numbers());
        put_part(&mut all, 38, &self.usart.numbers());
        put_part(&mut all, 52, &self.spi.numbers());
        put_part(&mut all, 62, &self.radio.numbers());
        all
    }

    /// A test for each of these `numbers` of the timers, whether it is within its bound.
    #[tactic(auto, unfolding(crate::specs::Saved::timers_fit))]
    pub fn timers_fit(numbers: &[u64; TIMER_NUMBERS]) -> [bool; TIMER_NUMBERS]
        ensures { result ≡ timers_fit numbers.now }
    {
        let mut all = [false; TIMER_NUMBERS];
        put_part(
            &mut all,
            0,
            &Timer8::fits(Prescaler::Own, &part(numbers, 0)),
        );
        put_part(
            &mut all,
            6,
            &Timer8::fits(Prescaler::Shared, &part(numbers, 6)),
        );
        put_part(&mut all, 12, &Timer16::fits(&part(numbers, 12)));
        put_part(&mut all, 25, &Timer16::fits(&part(numbers, 25)));
        all
    }

    /// A test for each of these `numbers` of the ports, whether it is within its bound, where a frame and a transfer
    /// end at the cycle `ends_from` or later.
    #[tactic(auto, unfolding(crate::specs::Saved::ports_fit))]
    pub fn ports_fit(ends_from: u64, numbers: &[u64; PORT_NUMBERS]) -> [bool; PORT_NUMBERS]
        ensures { result ≡ ports_fit ends_from numbers.now }
    {
        let mut all = [false; PORT_NUMBERS];
        put_part(&mut all, 0, &Usart::fits(ends_from, &part(numbers, 0)));
        put_part(&mut all, 14, &Spi::fits(ends_from, &part(numbers, 14)));
        put_part(&mut all, 24, &Radio::fits(&part(numbers, 24)));
        all
    }

    /// A test for each of these `numbers`, first those of the timers, then those of the ports.
    #[tactic(auto, unfolding(crate::specs::Saved::fits))]
    pub fn fits(ends_from: u64, numbers: &[u64; DEVICE_NUMBERS]) -> [bool; DEVICE_NUMBERS]
        ensures { result ≡ fits ends_from numbers.now }
    {
        let mut all = [false; DEVICE_NUMBERS];
        put_part(&mut all, 0, &Board::timers_fit(&part(numbers, 0)));
        put_part(
            &mut all,
            TIMER_NUMBERS,
            &Board::ports_fit(ends_from, &part(numbers, TIMER_NUMBERS)),
        );
        all
    }

    /// The byte that it keeps itself at the data address `at`, 0 where it keeps none.
    pub fn io(&self, at: u8) -> u8
        ensures { result ≡ io_at at self.now }
    {
        if rule_at(at).is_kept() {
            self.kept[usize::from(at)]
        } else {
            0
        }
    }

    /// The board of these numbers and of the 224 bytes `io` that it keeps itself, from data address 0x20 on, with the byte
    /// time of its radio in cycles, at most 4,096. `None` exactly where `fits` has a test that failed.
    pub fn restore(
        byte_time: u64,
        ends_from: u64,
        numbers: &[u64; DEVICE_NUMBERS],
        io: &[u8],
    ) -> Option<Board>
        requires byte_time { byte_time ≤ LONGEST_BYTE }
        requires io { length io.now ≡ IO_COUNT }
        ensures none { is_some result ≡ list_all (λ fit. fit) (fits ends_from numbers.now) }
        ensures some { IfSome result (λ b. IsRestored byte_time numbers.now io.now b) }
    {
        Some(Board {
            kept: kept_of(io),
            t0: Timer8::from_numbers(Prescaler::Own, &part(numbers, 0))?,
            t2: Timer8::from_numbers(Prescaler::Shared, &part(numbers, 6))?,
            t1: Timer16::from_numbers(&part(numbers, 12))?,
            t3: Timer16::from_numbers(&part(numbers, 25))?,
            usart: Usart::from_numbers(ends_from, &part(numbers, 38))?,
            spi: Spi::from_numbers(ends_from, &part(numbers, 52))?,
            radio: Radio::from_numbers(byte_time, &part(numbers, 62))?,
        })
    }
}

impl LaggingBoard {
    ghost use Rattle.board_io.specs.Board.{clocked};
    ghost use Rattle.board_io.specs.Kept.{io_at};
    ghost use Rattle.board_io.specs.Saved.{numbers_of};

    /// A board as it stands when the cycle `cycle` begins, at most 2^40.
    pub fn restored(board: Board, cycle: u64) -> LaggingBoard
        requires { cycle ≤ LAST_CYCLE }
        ensures { result ≡ clocked cycle board }
    {
        let ahead = board.ahead(cycle, 0);
        let clock = Clock::new(cycle);
        LaggingBoard {
            ahead,
            held: ClockedBoard { clock, board },
        }
    }

    // The board of its clock's cycle.
    fn caught_up(&self) -> Board
        ensures { result ≡ self.now.board }
    {
        let mut board = Board {
            kept: self.held.board.kept,
            t0: self.held.board.t0,
            t1: self.held.board.t1,
            t2: self.held.board.t2,
            t3: self.held.board.t3,
            usart: self.held.board.usart,
            spi: self.held.board.spi,
            radio: self.held.board.radio,
        };
        board.catch_up(self.ahead.settled, self.held.clock);
        board
    }

    /// The numbers of its devices, as [`Board::numbers`] gives them.
    pub fn numbers(&self) -> [u64; DEVICE_NUMBERS]
        ensures { result ≡ numbers_of self.now.board }
    {
        self.caught_up().numbers()
    }

    /// The byte that it keeps itself at the data address `at`, 0 where it keeps none.
    #[tactic(auto, unfolding(crate::specs::Cycle::timers_leap))]
    pub fn io(&self, at: u8) -> u8
        ensures { result ≡ io_at at self.now.board }
    {
        self.held.board.io(at)
    }
}
