//! The timers of the ATmega128. Prescalers, counters with their compare values, and how many cycles pass until a flag
//! is set, in closed form; timers 0 and 2 of eight bits (`timer8`), with one compare value, normal and CTC mode; timers
//! 1 and 3 of sixteen bits (`timer16`), with three compare values, the two modes that clear the counter, and registers
//! with a shared byte TEMP; and their flags. A timer moves as its counter does, cycle by cycle, or over many cycles at
//! once.
#![tactic(auto)]

mod clock;
mod counter;
mod event;
mod flags;
mod mode;
mod numbers16;
mod numbers8;
mod prescaler;
mod registers16;
mod registers8;
mod timer16;
mod timer8;
mod timer_counter;

pub use clock::{clocks_in, cycle_of_clock, has_clock};
pub use counter::{clocks_until, count_after, stepped};
pub use event::{earlier, flag_after, unless_set};
pub use flags::TimerFlags;
pub use mode::Mode16;
pub use prescaler::Prescaler;
pub use registers8::Reg8;
pub use registers16::{Channel, Reg16};
pub use timer_counter::TimerCounter;
pub use timer8::Timer8;
pub use timer16::Timer16;
