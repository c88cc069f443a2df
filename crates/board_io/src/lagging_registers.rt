// The I/O registers of a board that lags.
ghost use Rattle.std.specs.Prelude.{◌≡◌, ◌≤◌, ◌+◌, true, false};
ghost use Rattle.air_base.specs.Bounds.{LAST_END};
ghost use Rattle.avr_timers.specs.Clock.{cycles};
ghost use Rattle.avr_timers.specs.Registers16 as reg16;
ghost use Rattle.avr_timers.specs.Registers8 as reg8;
ghost use Rattle.avr_timers.specs.Timer16 as timer16;
ghost use Rattle.avr_timers.specs.Timer8 as timer8;
ghost use Rattle.board_io.specs.Lagging.{ReadsStill, is_flags, is_high, is_spdr, is_standing, is_still_port, is_still_read, is_udr, is_plain_read, is_plain_write, leaves_timers, stays_8, stays_16};
ghost use Rattle.board_io.specs.Table.{rule_of};
ghost use Rattle.serial_ports.specs.Usart.{lines_of as usart_lines};

use crate::ahead::clear_until;
use crate::names::{ETIMSK, TIMSK};
use crate::passing::cycles_before;
use crate::rules::{LAST, Rule, listed_rule};
use crate::{Board, LaggingBoard};
use avr_base::StopCause;
use avr_timers::{Reg8, Reg16, Timer8, Timer16};
use data_space::Bus;
use serial_ports::{Spi, SpiReg, UsartReg};

// Whether a register of USART0 is UDR0. A read of it takes a byte from the receive buffer.
#[inline]
fn is_udr(reg: UsartReg) -> bool
    ensures { result ≡ is_udr reg }
{
    match reg {
        UsartReg::Udr => true,
        UsartReg::StatusA
        | UsartReg::ControlB
        | UsartReg::ControlC
        | UsartReg::BaudL
        | UsartReg::BaudH => false,
    }
}

// Whether a register of the serial peripheral interface is SPDR. A read of it can clear SPIF, and its line.
#[inline]
fn is_spdr(reg: SpiReg) -> bool
    ensures { result ≡ is_spdr reg }
{
    match reg {
        SpiReg::Spdr => true,
        SpiReg::Control | SpiReg::Status => false,
    }
}

// Whether a read by a rule looks at no timer but for its flags, and leaves the lines and what may end.
#[inline]
fn is_plain_read(rule: Rule) -> bool
    ensures { result ≡ is_plain_read rule }
{
    match rule {
        Rule::Reserved
        | Rule::Pin(_)
        | Rule::Kept(_)
        | Rule::Guarded(..)
        | Rule::WatchdogControl
        | Rule::ResetFlags
        | Rule::CpuControl
        | Rule::TimerFlags
        | Rule::ExtendedTimerFlags => true,
        Rule::Timer0(_) | Rule::Timer1(_) | Rule::Timer2(_) | Rule::Timer3(_) => false,
        Rule::Usart0(reg) => !is_udr(reg),
        Rule::Spi(reg) => !is_spdr(reg),
    }
}

// Whether a register of a timer of sixteen bits is a high byte, whose write fills TEMP alone.
#[inline]
fn is_high(reg: Reg16) -> bool
    ensures { result ≡ is_high reg }
{
    match reg {
        Reg16::CountH | Reg16::IcrH | Reg16::CompH(_) => true,
        Reg16::ControlA
        | Reg16::ControlB
        | Reg16::ControlC
        | Reg16::CountL
        | Reg16::IcrL
        | Reg16::CompL(_) => false,
    }
}

// Whether a write by a rule of the register at an address moves no event of a timer, and leaves the lines and what may
// end. TIMSK and ETIMSK enable the timers' lines.
#[inline]
fn is_plain_write(rule: Rule, at: u8) -> bool
    ensures { result ≡ is_plain_write rule at }
{
    match rule {
        Rule::Reserved | Rule::Pin(_) | Rule::WatchdogControl => true,
        Rule::Kept(_) | Rule::Guarded(..) | Rule::ResetFlags | Rule::CpuControl => {
            at != TIMSK && at != ETIMSK
        }
        Rule::TimerFlags
        | Rule::ExtendedTimerFlags
        | Rule::Timer0(_)
        | Rule::Timer2(_)
        | Rule::Usart0(_)
        | Rule::Spi(_) => false,
        Rule::Timer1(reg) | Rule::Timer3(reg) => is_high(reg),
    }
}

// Whether a write of a register of a timer of eight bits that stands leaves it standing: it chooses no clock.
#[inline]
fn stays_8(reg: Reg8, x: u8) -> bool
    ensures { result ≡ stays_8 reg x }
{
    match reg {
        Reg8::Control => x % 8 == 0,
        Reg8::Count | Reg8::Compare => true,
    }
}

// The same of a timer of sixteen bits.
#[inline]
fn stays_16(reg: Reg16, x: u8) -> bool
    ensures { result ≡ stays_16 reg x }
{
    match reg {
        Reg16::ControlB => x % 8 == 0,
        Reg16::ControlA
        | Reg16::ControlC
        | Reg16::CountL
        | Reg16::CountH
        | Reg16::IcrL
        | Reg16::IcrH
        | Reg16::CompL(_)
        | Reg16::CompH(_) => true,
    }
}

// Whether a read of a register of the serial peripheral interface changes nothing. A read of SPSR notes the flags that
// are set.
fn is_still_port(reg: SpiReg, port: &Spi) -> bool
    ensures { result ≡ is_still_port reg port.now }
{
    match reg {
        SpiReg::Control => true,
        SpiReg::Status => !port.spif & !port.wcol & !port.noted_spif & !port.noted_wcol,
        SpiReg::Spdr => false,
    }
}

// What a register of a timer reads as behind the `n` cycles from `cycle` on, of which the timer is not told.
fn late_8(timer: &Timer8, cycle: u64, n: u64, reg: Reg8) -> u8
    requires { cycle + n ≤ LAST_END }
    ensures { result ≡ reg8.get_of (cycles timer8.timer_cycle cycle n timer.now) reg }
{
    let mut later = *timer;
    later.leap(cycle, n);
    later.get(reg)
}

// The same of a timer of sixteen bits: of it TEMP may change.
fn late_16(timer: &mut Timer16, cycle: u64, n: u64, reg: Reg16) -> u8
    requires { cycle + n ≤ LAST_END }
    ensures got { reg16.get_of (cycles timer16.timer_cycle cycle n timer.old) reg ≡ (result, cycles timer16.timer_cycle cycle n timer.new) }
    ensures others { timer.new ≡ record timer.old { temp = timer.new.temp } }
{
    let mut later = *timer;
    later.leap(cycle, n);
    let byte = later.get(reg);
    timer.temp = later.temp;
    byte
}

impl Board {
    // Whether a byte that USART0 received asks for an interrupt.
    #[inline]
    fn asks_for_a_read(&self) -> bool
        ensures { result ≡ (usart_lines self.now.usart).rxc }
    {
        self.usart.lines().rxc
    }

    // Whether room for a byte to send asks for an interrupt.
    #[inline]
    fn asks_for_a_write(&self) -> bool
        ensures { result ≡ (usart_lines self.now.usart).udre }
    {
        self.usart.lines().udre
    }

    // Whether a write by a rule is one of a timer that stands before it and after it, and so moves no event.
    #[inline]
    fn is_standing(&self, rule: Rule, x: u8) -> bool
        ensures { result ≡ is_standing rule x self.now }
    {
        match rule {
            Rule::Timer0(reg) => (self.t0.select == 0) & stays_8(reg, x),
            Rule::Timer1(reg) => (self.t1.select == 0) & stays_16(reg, x),
            Rule::Timer2(reg) => (self.t2.select == 0) & stays_8(reg, x),
            Rule::Timer3(reg) => (self.t3.select == 0) & stays_16(reg, x),
            Rule::Reserved
            | Rule::Pin(_)
            | Rule::Kept(_)
            | Rule::Guarded(..)
            | Rule::WatchdogControl
            | Rule::ResetFlags
            | Rule::CpuControl
            | Rule::TimerFlags
            | Rule::ExtendedTimerFlags
            | Rule::Usart0(_)
            | Rule::Spi(_) => false,
        }
    }

    // Whether a read by a rule changes nothing, and gives the same as long as the timers alone move.
    fn reads_still(&self, rule: Rule) -> bool
        ensures { result ≡ is_still_read rule self.now }
    {
        match rule {
            Rule::Pin(_)
            | Rule::Kept(_)
            | Rule::Guarded(..)
            | Rule::WatchdogControl
            | Rule::ResetFlags
            | Rule::CpuControl => true,
            Rule::Reserved
            | Rule::TimerFlags
            | Rule::ExtendedTimerFlags
            | Rule::Timer0(_)
            | Rule::Timer1(_)
            | Rule::Timer2(_)
            | Rule::Timer3(_) => false,
            Rule::Usart0(reg) => !is_udr(reg),
            Rule::Spi(reg) => is_still_port(reg, &self.spi),
        }
    }
}

impl LaggingBoard {
    /// Whether a load at a data address below 0x0100 changes nothing, and gives the same byte in each cycle before the
    /// next event.
    #[inline(always)]
    pub fn reads_still(&self, at: u16) -> bool
        ensures { result ≡ true → ReadsStill self.now.board at }
    {
        if at > LAST {
            return false;
        }
        self.held.board.reads_still(listed_rule(at))
    }
}

impl LaggingBoard {
    ghost use Rattle.board_io.specs.Registers.{IsGot, IsPut, get_in, put_in};

    // A read that looks at no timer but for its flags.
    #[inline]
    fn get_plain(&mut self, rule: Rule, at: u8) -> Result<u8, StopCause>
        requires { is_plain_read rule ≡ true }
        ensures { IsGot (get_in rule self.old at) self.old result self.new }
    {
        self.held.board.get_by(rule, at)
    }

    // A read by the rule of an address: of a timer, which does not catch up, of a port, or of what looks at no timer. One
    // match tells them apart, so that the host jumps once.
    #[inline(always)]
    fn get_listed(&mut self, at: u16) -> Result<u8, StopCause>
        requires { at ≤ 0x9F }
        ensures { IsGot (get_in (rule_of at) self.old at) self.old result self.new }
    {
        let rule = listed_rule(at);
        let settled = self.ahead.settled;
        let clock = self.held.clock.get();
        let n = clock - settled;
        // whether no timer has passed its top since
        let steady = clock <= self.ahead.steady;
        match rule {
            Rule::Timer0(reg) if steady => Ok(self.held.board.t0.get_calm(settled, n, reg)),
            Rule::Timer1(reg) if steady => Ok(self.held.board.t1.get_calm(settled, n, reg)),
            Rule::Timer2(reg) if steady => Ok(self.held.board.t2.get_calm(settled, n, reg)),
            Rule::Timer3(reg) if steady => Ok(self.held.board.t3.get_calm(settled, n, reg)),
            Rule::Spi(SpiReg::Spdr) => self.get_spdr(at),
            Rule::Usart0(UsartReg::Udr) => self.get_udr(at),
            _ if is_plain_read(rule) => self.get_plain(rule, at as u8),
            _ => self.get_beside(at),
        }
    }

    // A read of SPDR: where the interface asks for no interrupt, it asks for none after the read.
    #[inline(always)]
    fn get_spdr(&mut self, at: u16) -> Result<u8, StopCause>
        requires listed { at ≤ 0x9F }
        requires rule { rule_of at ≡ Rule.Spi SpiReg.Spdr }
        ensures { IsGot (get_in (rule_of at) self.old at) self.old result self.new }
    {
        if self.held.board.spi.line() {
            return self.get_beside(at);
        }
        self.held.board.get_by(Rule::Spi(SpiReg::Spdr), at as u8)
    }

    // A read of UDR0: where no byte that was received asks for an interrupt, none does after the read.
    #[inline(always)]
    fn get_udr(&mut self, at: u16) -> Result<u8, StopCause>
        requires listed { at ≤ 0x9F }
        requires rule { rule_of at ≡ Rule.Usart0 UsartReg.Udr }
        ensures { IsGot (get_in (rule_of at) self.old at) self.old result self.new }
    {
        if self.held.board.asks_for_a_read() {
            return self.get_beside(at);
        }
        self.held
            .board
            .get_by(Rule::Usart0(UsartReg::Udr), at as u8)
    }

    // A read of a port, or of a timer that may have passed its top: this timer alone is looked at, and what is known of the
    // board stays. In a call of its own: inlined, the code would slow the other reads.
    #[inline(never)]
    fn get_beside(&mut self, at: u16) -> Result<u8, StopCause>
        requires { at ≤ 0x9F }
        ensures { IsGot (get_in (rule_of at) self.old at) self.old result self.new }
    {
        let low = at as u8;
        let rule = listed_rule(at);
        let settled = self.ahead.settled;
        let n = self.held.clock.get() - settled;
        match rule {
            Rule::Timer0(reg) => Ok(late_8(&self.held.board.t0, settled, n, reg)),
            Rule::Timer1(reg) => Ok(late_16(&mut self.held.board.t1, settled, n, reg)),
            Rule::Timer2(reg) => Ok(late_8(&self.held.board.t2, settled, n, reg)),
            Rule::Timer3(reg) => Ok(late_16(&mut self.held.board.t3, settled, n, reg)),
            Rule::Usart0(_) | Rule::Spi(_) => self.get_port(rule, low),
            _ => self.get_caught_up(rule, low),
        }
    }

    // A read of a timer that may have passed its top in the cycles that are made up for first.
    fn get_caught_up(&mut self, rule: Rule, at: u8) -> Result<u8, StopCause>
        ensures { IsGot (get_in rule self.old at) self.old result self.new }
    {
        self.held
            .board
            .catch_up(self.ahead.settled, self.held.clock);
        let got = self.held.board.get_by(rule, at);
        self.ahead = self
            .held
            .board
            .ahead(self.held.clock.get(), self.ahead.lines);
        got
    }

    // A write that moves no timer's event.
    #[inline]
    fn put_plain(&mut self, rule: Rule, at: u8, x: u8) -> Result<(), StopCause>
        requires { is_plain_write rule at ≡ true }
        ensures { IsPut (put_in rule self.old at x) self.old result self.new }
    {
        self.held.board.put_by(self.held.clock, rule, at, x)
    }

    // A write of a register that only holds a byte.
    #[inline(always)]
    fn put_kept(&mut self, mask: u8, at: u8, x: u8) -> Result<(), StopCause>
        requires { is_plain_write (Rule.Kept mask) at ≡ true }
        ensures { IsPut (put_in (Rule.Kept mask) self.old at x) self.old result self.new }
    {
        self.held.board.keep(at, x & mask);
        Ok(())
    }

    // A read of USART0 or of the serial peripheral interface, which may move its lines and its end.
    #[inline(always)]
    fn get_port(&mut self, rule: Rule, at: u8) -> Result<u8, StopCause>
        requires { leaves_timers rule ≡ true }
        ensures { IsGot (get_in rule self.old at) self.old result self.new }
    {
        let got = self.held.board.get_by(rule, at);
        let clock = self.held.clock.get();
        self.ahead = self.held.board.ahead_beside(clock, self.ahead);
        got
    }

    // A write of USART0, of the serial peripheral interface, or of TIMSK or ETIMSK, which moves no timer.
    fn put_port(&mut self, rule: Rule, at: u8, x: u8) -> Result<(), StopCause>
        requires { leaves_timers rule ≡ true }
        ensures { IsPut (put_in rule self.old at x) self.old result self.new }
    {
        let put = self.held.board.put_by(self.held.clock, rule, at, x);
        let clock = self.held.clock.get();
        self.ahead = self.held.board.ahead_beside(clock, self.ahead);
        put
    }

    // A write of TIFR or ETIFR, which moves no event: where no timer has set a flag since its timers were made up for, the
    // flags are cleared before their cycles as behind them.
    #[inline(never)]
    fn put_flags(&mut self, rule: Rule, at: u8, x: u8) -> Result<(), StopCause>
        requires { is_flags rule ≡ true }
        ensures { IsPut (put_in rule self.old at x) self.old result self.new }
    {
        if self.held.clock.get() > self.ahead.steady {
            return self.put_and_look_ahead(rule, at, x);
        }
        let put = self.held.board.put_by(self.held.clock, rule, at, x);
        let lines = self.held.board.lines().bits;
        let next = self.ahead.next.min(self.ahead.steady);
        self.ahead.next = next;
        self.ahead.lines = lines;
        self.ahead.clear = clear_until(lines, next);
        put
    }

    // A write that may move a line or an event.
    #[inline(never)]
    fn put_beside(&mut self, at: u16, x: u8) -> Result<(), StopCause>
        requires { at ≤ 0x9F }
        ensures { IsPut (put_in (rule_of at) self.old at x) self.old result self.new }
    {
        let low = at as u8;
        let rule = listed_rule(at);
        match rule {
            Rule::Usart0(_) | Rule::Spi(_) | Rule::Kept(_) => self.put_port(rule, low, x),
            Rule::TimerFlags | Rule::ExtendedTimerFlags => self.put_flags(rule, low, x),
            _ => self.put_timer(rule, low, x),
        }
    }

    // A write of SPDR: where the interface asks for no interrupt, it asks for none after the write, but what may end is
    // the transfer that it begins.
    #[inline(never)]
    fn put_spdr(&mut self, at: u16, x: u8) -> Result<(), StopCause>
        requires listed { at ≤ 0x9F }
        requires rule { rule_of at ≡ Rule.Spi SpiReg.Spdr }
        ensures { IsPut (put_in (rule_of at) self.old at x) self.old result self.new }
    {
        if self.held.board.spi.line() {
            return self.put_beside(at, x);
        }
        let put = self.held.board.put_spdr(self.held.clock, at as u8, x);
        let clock = self.held.clock.get();
        let most = self.ahead.next.saturating_sub(clock);
        let calm = cycles_before(self.held.board.spi.done_at(), clock, most);
        let next = clock + calm;
        self.ahead.next = next;
        self.ahead.clear = clear_until(self.ahead.lines, next);
        put
    }

    // A write of UDR0: where room for a byte asks for no interrupt, it asks for none after the write, but what may end is
    // the frame that it begins.
    #[inline(never)]
    fn put_udr(&mut self, at: u16, x: u8) -> Result<(), StopCause>
        requires listed { at ≤ 0x9F }
        requires rule { rule_of at ≡ Rule.Usart0 UsartReg.Udr }
        ensures { IsPut (put_in (rule_of at) self.old at x) self.old result self.new }
    {
        if self.held.board.asks_for_a_write() {
            return self.put_beside(at, x);
        }
        let put = self.held.board.put_udr(self.held.clock, at as u8, x);
        let clock = self.held.clock.get();
        let most = self.ahead.next.saturating_sub(clock);
        let calm = cycles_before(self.held.board.usart.next_event(), clock, most);
        let next = clock + calm;
        self.ahead.next = next;
        self.ahead.clear = clear_until(self.ahead.lines, next);
        put
    }

    // A write that may move a timer's event: it moves none where the timer stands, before it and after it.
    #[inline(always)]
    fn put_timer(&mut self, rule: Rule, at: u8, x: u8) -> Result<(), StopCause>
        ensures { IsPut (put_in rule self.old at x) self.old result self.new }
    {
        if !self.held.board.is_standing(rule, x) {
            return self.put_and_look_ahead(rule, at, x);
        }
        self.held.board.put_by(self.held.clock, rule, at, x)
    }

    // A write of what may move a timer's event, or enables its line.
    #[inline(never)]
    fn put_and_look_ahead(&mut self, rule: Rule, at: u8, x: u8) -> Result<(), StopCause>
        ensures { IsPut (put_in rule self.old at x) self.old result self.new }
    {
        self.held
            .board
            .catch_up(self.ahead.settled, self.held.clock);
        let put = self.held.board.put_by(self.held.clock, rule, at, x);
        self.ahead = self
            .held
            .board
            .ahead(self.held.clock.get(), self.ahead.lines);
        put
    }
}

impl Bus for LaggingBoard {
    ghost use Rattle.board_io.specs.Registers.{io_get, io_put};

    ghost get_gives = { io_get };

    ghost put_gives = { io_put };

    // For a caller that is itself called: twenty instructions may access a device, few do, and inlined into each of them
    // this would crowd the node's loop.
    #[inline(always)]
    #[tactic(auto, unfolding(crate::specs::Registers::io_get))]
    fn get(&mut self, at: u16) -> Result<u8, StopCause> {
        if at > LAST {
            return Err(StopCause::ReservedAddress);
        }
        self.get_listed(at)
    }

    // Called, for the same reason.
    #[inline(never)]
    #[tactic(auto, unfolding(crate::specs::Registers::io_put))]
    fn put(&mut self, at: u16, b: u8) -> Result<(), StopCause> {
        if at > LAST {
            return Err(StopCause::ReservedAddress);
        }
        let low = at as u8;
        let rule = listed_rule(at);
        match rule {
            Rule::Kept(mask) if low != TIMSK && low != ETIMSK => self.put_kept(mask, low, b),
            Rule::Spi(SpiReg::Spdr) => self.put_spdr(at, b),
            Rule::Usart0(UsartReg::Udr) => self.put_udr(at, b),
            _ if is_plain_write(rule, low) => self.put_plain(rule, low, b),
            _ => self.put_beside(at, b),
        }
    }
}
