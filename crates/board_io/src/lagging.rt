// A board that does its timers' cycles once somebody looks at them.
ghost use Rattle.std.specs.Prelude.{◌≡◌, ◌≤◌, ◌<◌, ◌+◌, ◌-◌, ◌*◌, ℕ, true, false, is_some};
ghost use Rattle.air_base.specs.Bounds.{LAST_CYCLE};
ghost use Rattle.air_base.specs.declared.bounds.TheConstants.{LONGEST_BYTE};
ghost use Rattle.board_io.specs.Lagging.{IsUneventful, IsIdle};

use crate::ahead::{Forecast, clear_until};
use crate::{Board, Clock, ClockedBoard, CycleOutput, Sleep};
use air_base::{Heard, LAST_CYCLE};
use avr_base::{Lines, Vector};
use std::marker::Model;

/// A board and its clock, as the node runs them. Contracts see the board of its clock's cycle; behind that its timers
/// lag, since most cycles only count: they are made up for at an access to a timer and at an event, and until the next
/// event the interrupt lines are those that are kept.
#[derive(Drop)]
pub struct LaggingBoard {
    // before the clock, which is then not at the address of the whole: that is passed to calls, so the host would keep it in
    // a register, and look the clock up by it
    pub(crate) ahead: Forecast,
    // the clock, and the board whose timers have come to `settled`
    pub(crate) held: ClockedBoard,
}

impl Model for LaggingBoard {
    ghost use Rattle.board_io.specs.declared.clocked.ClockedBoard.{ClockedBoard};
    ghost use Rattle.board_io.specs.Board.{clocked};
    ghost use Rattle.board_io.specs.Lagging.{IsAhead, caught_up};

    ghost Value = { ClockedBoard };

    ghost view = { λ a. clocked a.held.clock (caught_up a.ahead.settled a.held.clock a.held.board) };

    ghost invariant = { λ a. IsAhead a.ahead a.held.clock a.held.board };
}

impl LaggingBoard {
    ghost use Rattle.board_io.specs.Board.{clocked, reset_board, sleep_mode};
    ghost use Rattle.board_io.specs.Cycle.{board_air, board_answered, board_begun, board_quiet, board_serial, is_asks, timers_leap};
    ghost use Rattle.board_io.specs.Lines.{entered_of, lines_of};

    /// The board after reset, at cycle 0, with the byte time of its radio in cycles, at most 4,096.
    pub fn new(byte_time: u64) -> LaggingBoard
        requires { byte_time ≤ LONGEST_BYTE }
        ensures { result ≡ clocked 0 (reset_board byte_time) }
    {
        LaggingBoard::restored(Board::new(byte_time), 0)
    }

    /// The interrupt lines.
    #[inline]
    pub fn lines(&self) -> Lines
        ensures { result ≡ lines_of self.now.board }
    {
        Lines {
            bits: self.ahead.lines,
        }
    }

    /// What SLEEP would do.
    #[inline]
    pub fn sleep_mode(&self) -> Sleep
        ensures { result ≡ sleep_mode self.now.board }
    {
        self.held.board.sleep_mode()
    }

    /// Passes cycles, of at most `most`, in which no frame and no transfer ends and each of which begins with the lines
    /// of now, as far as what runs now tells: how many it were.
    #[inline]
    pub fn leap_up_to(&mut self, most: u64) -> u64
        ensures within { result ≤ most }
        ensures idle { IsIdle self.old.clock result self.old.board }
        ensures state { self.new.board ≡ timers_leap self.old.clock result self.old.board }
        ensures lines { lines_of self.new.board ≡ lines_of self.old.board }
        ensures clock { self.new.clock ≡ self.old.clock + result }
    {
        let clock = self.held.clock.get();
        let n = most.min(self.ahead.next.saturating_sub(clock));
        self.held.clock = Clock::new(clock + n);
        n
    }

    /// Passes whole rounds of `length` cycles, of at most `most` cycles in all, in none of which a frame or a transfer
    /// ends or the lines change, as far as what runs now tells: how many rounds.
    #[inline]
    pub fn leap_rounds(&mut self, most: u64, length: u64) -> u64
        requires { 0 < length }
        ensures within { result * length ≤ most }
        ensures idle { IsIdle self.old.clock (result * length) self.old.board }
        ensures state { self.new.board ≡ timers_leap self.old.clock (result * length) self.old.board }
        ensures lines { lines_of self.new.board ≡ lines_of self.old.board }
        ensures clock { self.new.clock ≡ self.old.clock + result * length }
    {
        let clock = self.held.clock.get();
        let rounds = most.min(self.ahead.next.saturating_sub(clock)) / length;
        self.held.clock = Clock::new(clock + rounds * length);
        rounds
    }

    /// Passes the `n` cycles from `cycle` on, which is that of its clock, if no frame and no transfer ends in any of
    /// them and each begins with the lines of now, as far as what runs now tells: whether it passed them.
    #[inline]
    pub fn leap_whole(&mut self, cycle: u64, n: u8) -> bool
        requires now { self.old.clock ≡ cycle }
        ensures idle { result ≡ true → IsIdle cycle n self.old.board }
        ensures state { result ≡ true → self.new.board ≡ timers_leap cycle n self.old.board }
        ensures lines { result ≡ true → lines_of self.new.board ≡ lines_of self.old.board }
        ensures clock { result ≡ true → self.new.clock ≡ cycle + n }
        ensures same { result ≡ false → self.new ≡ self.old }
    {
        let next = self.ahead.next;
        let end = cycle + u64::from(n);
        if end > next {
            return false;
        }
        self.held.clock = Clock::new(end);
        true
    }

    /// The cycle that its clock shows.
    #[inline(always)]
    pub fn now(&self) -> u64
        ensures value { result ≡ self.now.clock }
        ensures early { result ≤ LAST_CYCLE }
    {
        self.held.clock.get()
    }

    /// A cycle, of 2^40 at most, up to whose beginning no frame and no transfer ends and no timer changes a flag, as far as
    /// what runs now tells: so up to there the interrupt lines stay.
    #[inline(always)]
    pub fn calm(&self) -> u64
        ensures early { result ≤ LAST_CYCLE }
        ensures calm { IsUneventful result self.now }
    {
        self.ahead.next
    }

    /// That cycle where no interrupt line is up; 0 where one is.
    #[inline(always)]
    pub fn clear(&self) -> u64
        ensures early { result ≤ LAST_CYCLE }
        ensures calm { IsUneventful result self.now }
        ensures down { self.now.clock < result → (lines_of self.now.board).bits ≡ 0 }
    {
        self.ahead.clear
    }

    /// Passes the `n` cycles from that of its clock on, if they are over by the beginning of the cycle `bound`, up to
    /// which nothing happens: whether it passed them.
    #[inline(always)]
    pub fn leap_within(&mut self, bound: u64, n: u8) -> bool
        requires some { 0 < n }
        requires early { bound ≤ LAST_CYCLE }
        requires calm { IsUneventful bound self.old }
        ensures within { result ≡ true → self.old.clock + n ≤ bound }
        ensures idle { result ≡ true → IsIdle self.old.clock n self.old.board }
        ensures state { result ≡ true → self.new.board ≡ timers_leap self.old.clock n self.old.board }
        ensures lines { result ≡ true → lines_of self.new.board ≡ lines_of self.old.board }
        ensures calm { result ≡ true → IsUneventful bound self.new }
        ensures clock { result ≡ true → self.new.clock ≡ self.old.clock + n }
        ensures same { result ≡ false → self.new ≡ self.old }
    {
        let end = self.held.clock.get() + u64::from(n);
        if end > bound {
            return false;
        }
        self.held.clock = Clock::new(end);
        true
    }

    /// Passes the `n` cycles from `cycle` on, which is that of its clock, if no frame and no transfer ends in any of them,
    /// be it that timers set flags: whether it passed them.
    #[inline(always)]
    pub fn leap_quiet(&mut self, cycle: u64, n: u8) -> bool
        requires now { self.old.clock ≡ cycle }
        ensures quiet { (i : ℕ) → result ≡ true → i < n → board_quiet (cycle + i) self.old.board ≡ true }
        ensures state { result ≡ true → self.new.board ≡ timers_leap cycle n self.old.board }
        ensures clock { result ≡ true → self.new.clock ≡ cycle + n }
        ensures same { result ≡ false → self.new ≡ self.old }
    {
        if self.leap_whole(cycle, n) {
            return true;
        }
        self.leap_over_flags(cycle, n)
    }

    /// Whether a transfer may end before a cycle. Nothing rests on it: it saves a look ahead.
    #[inline(always)]
    pub fn may_end_before(&self, cycle: u64) -> bool {
        self.held.board.may_end_before(cycle)
    }

    // The same where a timer may set a flag in them.
    #[inline(never)]
    fn leap_over_flags(&mut self, cycle: u64, n: u8) -> bool
        requires now { self.old.clock ≡ cycle }
        ensures quiet { (i : ℕ) → result ≡ true → i < n → board_quiet (cycle + i) self.old.board ≡ true }
        ensures state { result ≡ true → self.new.board ≡ timers_leap cycle n self.old.board }
        ensures clock { result ≡ true → self.new.clock ≡ cycle + n }
        ensures same { result ≡ false → self.new ≡ self.old }
    {
        let settled = self.ahead.settled;
        let n = u64::from(n);
        let end = cycle + n;
        if end > LAST_CYCLE || self.held.board.quiet(cycle, n) < n {
            return false;
        }
        self.held.board.leap(settled, end - settled);
        self.held.clock = Clock::new(end);
        self.ahead = self.held.board.ahead(end, self.ahead.lines);
        true
    }

    // The devices' part of a cycle in which something may end.
    #[inline(never)]
    fn begin_caught_up(&mut self, cycle: u64, arrival: Option<u8>) -> CycleOutput
        requires now { self.old.clock ≡ cycle }
        requires early { cycle < LAST_CYCLE }
        ensures state { self.new.board ≡ board_begun cycle arrival self.old.board }
        ensures clock { self.new.clock ≡ cycle + 1 }
        ensures serial { result.serial ≡ board_serial cycle self.old.board }
        ensures air { result.air ≡ board_air cycle self.old.board }
        ensures waits { is_asks result.air ≡ true → is_some self.new.board.spi.shift_register ≡ true }
    {
        let settled = self.ahead.settled;
        let n = cycle + 1 - settled;
        self.held.board.leap(settled, n);
        let begun = self.held.board.begin_ports(cycle, arrival);
        self.held.clock = Clock::new(cycle + 1);
        self.ahead = self.held.board.ahead(cycle + 1, self.ahead.lines);
        begun
    }

    /// The devices' part of the cycle `cycle`, which is that of its clock: as [`Board::begin`] does it. Its clock goes
    /// on to the next cycle.
    #[inline]
    pub fn begin(&mut self, cycle: u64, arrival: Option<u8>) -> CycleOutput
        requires now { self.old.clock ≡ cycle }
        requires early { cycle < LAST_CYCLE }
        ensures state { self.new.board ≡ board_begun cycle arrival self.old.board }
        ensures clock { self.new.clock ≡ cycle + 1 }
        ensures serial { result.serial ≡ board_serial cycle self.old.board }
        ensures air { result.air ≡ board_air cycle self.old.board }
        ensures waits { is_asks result.air ≡ true → is_some self.new.board.spi.shift_register ≡ true }
    {
        if arrival.is_none() && self.leap_whole(cycle, 1) {
            return CycleOutput::NOTHING;
        }
        self.begin_caught_up(cycle, arrival)
    }

    /// The rest of a cycle that samples, with what is heard: the transfer that sampled ends, and answers 0.
    pub fn answer(&mut self, h: Heard)
        requires { is_some self.old.board.spi.shift_register ≡ true }
        ensures state { self.new.board ≡ board_answered h self.old.board }
        ensures clock { self.new.clock ≡ self.old.clock }
    {
        self.held
            .board
            .catch_up(self.ahead.settled, self.held.clock);
        self.held.board.answer(h);
        self.ahead = self
            .held
            .board
            .ahead(self.held.clock.get(), self.ahead.lines);
    }

    /// What serving the interrupt of the vector `v` does to its source.
    pub fn entered(&mut self, v: Vector)
        ensures state { self.new.board ≡ entered_of v.word self.old.board }
        ensures clock { self.new.clock ≡ self.old.clock }
    {
        if self.held.clock.get() > self.ahead.steady {
            self.enter_caught_up(v);
            return;
        }
        self.held.board.entered(v);
        let lines = self.held.board.lines().bits;
        let next = self.ahead.next.min(self.ahead.steady);
        self.ahead.next = next;
        self.ahead.lines = lines;
        self.ahead.clear = clear_until(lines, next);
    }

    // The same where a timer may have set the flag again in a cycle that is not made up for yet.
    #[inline(never)]
    fn enter_caught_up(&mut self, v: Vector)
        ensures state { self.new.board ≡ entered_of v.word self.old.board }
        ensures clock { self.new.clock ≡ self.old.clock }
    {
        self.held
            .board
            .catch_up(self.ahead.settled, self.held.clock);
        self.held.board.entered(v);
        self.ahead = self
            .held
            .board
            .ahead(self.held.clock.get(), self.ahead.lines);
    }
}
