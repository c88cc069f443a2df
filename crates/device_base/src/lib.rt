//! What the devices of the ATmega128 share: bits of their registers and their names, and lists of numbers by which a
//! device is saved and restored.
#![tactic(auto)]

mod bits;
pub mod names;
mod numbers;

pub use bits::{any_bit, bit};
pub use numbers::{
    CORE_NUMBERS, DEVICE_NUMBERS, NUMBERS, PORT_NUMBERS, TIMER_NUMBERS, all_fit, first_outside,
    part, put_part,
};
