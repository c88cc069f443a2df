// The bus, and what an instruction reports.
ghost use Rattle.std.specs.Prelude.{◌≡◌, ℕ, Result, Ok, Err, OnOk, IfOk, OnErr, IfErr};
ghost use Rattle.avr_base.specs.declared.stop.StopCause.{StopCause};

use avr_base::StopCause;

/// What an instruction reports when it did not stop.
#[derive(Clone, Copy, PartialEq, Eq)]
pub struct Done {
    /// The clock cycles that it took (AVR Instruction Set Manual, "Cycles"), at least 1.
    pub cycles: u8,
    /// Whether it was SLEEP.
    pub sleep: bool,
}

/// The data space beside the core: the I/O registers and the SRAM. Its meaning is its own state: the two members say
/// of each state and address what an access gives, so that an instruction is defined over any bus by them.
pub trait Bus {
    /// What a load at a data address gives: the byte and the bus afterwards, or why it stops. A load may change the
    /// bus, as a read of a receive buffer does.
    ghost get_gives: { Self → ℕ → Result (ℕ × Self) StopCause };

    /// What a store of a byte at a data address gives: the bus afterwards, or why it stops.
    ghost put_gives: { Self → ℕ → ℕ → Result Self StopCause };

    /// Loads the byte at the data address `at`. A refused load changes nothing.
    fn get(&mut self, at: u16) -> Result<u8, StopCause>
        ensures ok { IfOk result (λ byte. get_gives self.old at ≡ Ok (byte, self.new)) }
        ensures err { IfErr result (λ cause. get_gives self.old at ≡ Err cause) }
        ensures same { OnErr result (self.new ≡ self.old) };

    /// Stores the byte `b` at the data address `at`. A refused store changes nothing.
    fn put(&mut self, at: u16, b: u8) -> Result<(), StopCause>
        ensures ok { OnOk result (put_gives self.old at b ≡ Ok self.new) }
        ensures err { IfErr result (λ cause. put_gives self.old at b ≡ Err cause) }
        ensures same { OnErr result (self.new ≡ self.old) };
}
