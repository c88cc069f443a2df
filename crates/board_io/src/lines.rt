// The interrupt lines, and what serving an interrupt clears.
ghost use Rattle.std.specs.Prelude.{◌≡◌, ◌≤◌, ◌^◌, true};
ghost use Rattle.board_io.specs.Lines.{line, served_flag};

use crate::Board;
use crate::names::{
    ETIMSK, OCIE0, OCIE1A, OCIE1B, OCIE1C, OCIE2, OCIE3A, OCIE3B, OCIE3C, SPI_STC, TIMER0_COMP,
    TIMER0_OVF, TIMER1_COMPA, TIMER1_COMPB, TIMER1_COMPC, TIMER1_OVF, TIMER2_COMP, TIMER2_OVF,
    TIMER3_COMPA, TIMER3_COMPB, TIMER3_COMPC, TIMER3_OVF, TIMSK, TOIE0, TOIE1, TOIE2, TOIE3,
    USART0_RX, USART0_TX, USART0_UDRE,
};
use avr_base::{Lines, Vector};
use avr_timers::TimerFlags;
use device_base::any_bit;
use device_base::names::SPIE;

// The bits of UCSR0B that enable the interrupts of USART0: RXCIE0, TXCIE0 and UDRIE0.
const USART_ENABLES: u8 = 0xE0;

// The bits of TIMSK that enable those of each timer.
const TIMER_0_ENABLES: u8 = 0x03;

const TIMER_1_ENABLES: u8 = 0x1C;

const TIMER_2_ENABLES: u8 = 0xC0;

// Each flag by itself.
const OVER: TimerFlags = TimerFlags {
    tov: true,
    ocf_a: false,
    ocf_b: false,
    ocf_c: false,
    icf: false,
};

const COMP_A: TimerFlags = TimerFlags {
    tov: false,
    ocf_a: true,
    ocf_b: false,
    ocf_c: false,
    icf: false,
};

const COMP_B: TimerFlags = TimerFlags {
    tov: false,
    ocf_a: false,
    ocf_b: true,
    ocf_c: false,
    icf: false,
};

const COMP_C: TimerFlags = TimerFlags {
    tov: false,
    ocf_a: false,
    ocf_b: false,
    ocf_c: true,
    icf: false,
};

// The line of the vector at a word address, by the flag of its source and whether its interrupt is enabled.
#[tactic(auto, unfolding(crate::specs::Lines::line))]
fn line(word: u16, flag: bool, enabled: bool) -> u64
    requires { word ≤ 58 }
    ensures value { result ≡ line word flag enabled }
    ensures most { result ≤ 2 ^ 29 }
{
    if flag && enabled {
        1u64 << (word / 2)
    } else {
        0
    }
}

// The flag of a timer that serving the interrupt of one of its vectors clears.
#[inline]
fn served_flag(v: Vector) -> TimerFlags
    ensures { result ≡ served_flag v.word }
{
    match v.word {
        TIMER2_COMP | TIMER1_COMPA | TIMER0_COMP | TIMER3_COMPA => COMP_A,
        TIMER1_COMPB | TIMER3_COMPB => COMP_B,
        TIMER1_COMPC | TIMER3_COMPC => COMP_C,
        _ => OVER,
    }
}

impl Board {
    ghost use Rattle.board_io.specs.Lines.{entered_of, extended_timer_lines, lines_of, port_lines, timer_0_lines, timer_1_lines, timer_2_lines, timer_lines};

    // The lines of timer 0, by the byte of TIMSK.
    #[inline]
    #[tactic(auto, using(crate::proofs::Enabled::no_lines_0))]
    fn timer_0_lines(&self, enabled: u8) -> u64
        ensures value { result ≡ timer_0_lines enabled self.now }
        ensures most { result ≤ 2 ^ 30 }
    {
        if !any_bit(enabled, TIMER_0_ENABLES) {
            return 0;
        }
        line(TIMER0_COMP, self.t0.ocf_a, any_bit(enabled, OCIE0))
            + line(TIMER0_OVF, self.t0.tov, any_bit(enabled, TOIE0))
    }

    // The lines of timer 1, by the byte of TIMSK.
    #[inline]
    #[tactic(auto, using(crate::proofs::Enabled::no_lines_1))]
    fn timer_1_lines(&self, enabled: u8) -> u64
        ensures value { result ≡ timer_1_lines enabled self.now }
        ensures most { result ≤ 2 ^ 31 }
    {
        if !any_bit(enabled, TIMER_1_ENABLES) {
            return 0;
        }
        line(TIMER1_COMPA, self.t1.flags.ocf_a, any_bit(enabled, OCIE1A))
            + line(TIMER1_COMPB, self.t1.flags.ocf_b, any_bit(enabled, OCIE1B))
            + line(TIMER1_OVF, self.t1.flags.tov, any_bit(enabled, TOIE1))
    }

    // The lines of timer 2, by the byte of TIMSK.
    #[inline]
    #[tactic(auto, using(crate::proofs::Enabled::no_lines_2))]
    fn timer_2_lines(&self, enabled: u8) -> u64
        ensures value { result ≡ timer_2_lines enabled self.now }
        ensures most { result ≤ 2 ^ 30 }
    {
        if !any_bit(enabled, TIMER_2_ENABLES) {
            return 0;
        }
        line(TIMER2_COMP, self.t2.ocf_a, any_bit(enabled, OCIE2))
            + line(TIMER2_OVF, self.t2.tov, any_bit(enabled, TOIE2))
    }

    // The lines of TIMSK. In much firmware none is enabled, and in most only those of one timer.
    #[tactic(auto, using(crate::proofs::Enabled::no_timer_lines, crate::proofs::Enabled::timer_lines_by))]
    fn timer_lines(&self) -> u64
        ensures value { result ≡ timer_lines self.now }
        ensures most { result ≤ 2 ^ 32 }
    {
        let enabled = self.kept(TIMSK);
        if enabled == 0 {
            return 0;
        }
        self.timer_2_lines(enabled) + self.timer_1_lines(enabled) + self.timer_0_lines(enabled)
    }

    // The lines of ETIMSK. In most firmware none is enabled.
    #[tactic(auto, using(crate::proofs::Enabled::no_extended_timer_lines))]
    fn extended_timer_lines(&self) -> u64
        ensures value { result ≡ extended_timer_lines self.now }
        ensures most { result ≤ 2 ^ 32 }
    {
        let enabled = self.kept(ETIMSK);
        if enabled == 0 {
            return 0;
        }
        line(TIMER1_COMPC, self.t1.flags.ocf_c, any_bit(enabled, OCIE1C))
            + line(TIMER3_COMPA, self.t3.flags.ocf_a, any_bit(enabled, OCIE3A))
            + line(TIMER3_COMPB, self.t3.flags.ocf_b, any_bit(enabled, OCIE3B))
            + line(TIMER3_COMPC, self.t3.flags.ocf_c, any_bit(enabled, OCIE3C))
            + line(TIMER3_OVF, self.t3.flags.tov, any_bit(enabled, TOIE3))
    }

    // The lines of the serial peripheral interface and of USART0. In much firmware none is enabled.
    #[tactic(auto, using(crate::proofs::Enabled::no_port_lines))]
    fn port_lines(&self) -> u64
        ensures value { result ≡ port_lines self.now }
        ensures most { result ≤ 2 ^ 32 }
    {
        if !any_bit(self.usart.control_b, USART_ENABLES) && !any_bit(self.spi.control, SPIE) {
            return 0;
        }
        let usart = self.usart.lines();
        line(SPI_STC, self.spi.line(), true)
            + line(USART0_RX, usart.rxc, true)
            + line(USART0_UDRE, usart.udre, true)
            + line(USART0_TX, usart.txc, true)
    }

    /// The interrupt lines: bit n is set exactly where the vector at word address 2n has a source whose flag and whose
    /// enable bit are set.
    #[inline(always)]
    #[tactic(auto, unfolding(crate::specs::Lines::lines_of))]
    pub fn lines(&self) -> Lines
        ensures { result ≡ lines_of self.now }
    {
        Lines {
            bits: self.timer_lines() + self.extended_timer_lines() + self.port_lines(),
        }
    }

    /// What serving the interrupt of the vector `v` does to its source: it clears its flag, but for RXC and UDRE of
    /// USART0, which stand as long as there is a byte to read and room for one to write.
    #[tactic(auto, unfolding(crate::specs::Lines::entered_of))]
    pub fn entered(&mut self, v: Vector)
        ensures { self.new ≡ entered_of v.word self.old }
    {
        match v.word {
            TIMER0_COMP | TIMER0_OVF => self.t0.clear(served_flag(v)),
            TIMER1_COMPA | TIMER1_COMPB | TIMER1_OVF | TIMER1_COMPC => self
                .t1
                .clear(served_flag(v)),
            TIMER2_COMP | TIMER2_OVF => self.t2.clear(served_flag(v)),
            TIMER3_COMPA | TIMER3_COMPB | TIMER3_COMPC | TIMER3_OVF => self
                .t3
                .clear(served_flag(v)),
            SPI_STC => self.spi.clear_spif(),
            USART0_TX => self.usart.clear_txc(),
            _ => {}
        }
    }
}
