// Why a node stops.
ghost use Rattle.std.specs.Prelude.{◌≡◌, ◌≤◌, length};
ghost use Rattle.avr_base.specs.Causes.{cause_number, cause_text, stop_number};

/// Why a node stopped: what its program asked for that the simulated part does not have. A stop is a row of the
/// trace, and no fault.
#[derive(Clone, Copy, PartialEq, Eq)]
pub enum StopCause {
    /// No instruction has this opcode word.
    ReservedOpcode,
    /// The manual leaves the result of these operands undefined, as of `ld r26, X+`.
    UndefinedOperands,
    /// SPM, self-programming.
    Spm,
    /// BREAK, the debugger's instruction.
    BreakOp,
    /// SLEEP in a mode other than idle.
    SleepMode,
    /// A timer mode other than normal and CTC.
    PwmMode,
    /// A timer clocked by a pin.
    ExternalTimerClock,
    /// A compare match that drives a pin.
    CompareOutput,
    /// A forced compare match.
    ForcedCompare,
    /// The input capture interrupt.
    InputCapture,
    /// A prescaler held or reset by SFIOR (TSM, PSR0, PSR321).
    Prescaler,
    /// USART0 with parity, nine bits, synchronous or multi-processor.
    UsartMode,
    /// SPI as a slave.
    SpiSlave,
    /// External memory.
    ExternalMemory,
    /// The watchdog enabled.
    Watchdog,
    /// An EEPROM access.
    Eeprom,
    /// The analog converter.
    Adc,
    /// The analog comparator's interrupt or capture.
    Comparator,
    /// The two-wire interface.
    Twi,
    /// An external interrupt enabled.
    ExternalInterrupt,
    /// The clock divided by XDIV.
    ClockDivision,
    /// Timer 0 on its own crystal.
    AsyncTimer,
    /// The vectors moved to the boot section.
    MovedVectors,
    /// USART1 enabled.
    Usart1,
    /// A data address below 0x0100 with no register.
    ReservedAddress,
    /// A data address above the internal SRAM.
    PastMemory,
}

impl StopCause {
    /// The number of the cause: 1 to 26 in the order of the variants.
    #[tactic(auto, unfolding(crate::specs::Causes::cause_number))]
    pub fn number(self) -> u8
        ensures { result ≡ cause_number self }
    {
        match self {
            StopCause::ReservedOpcode => 1,
            StopCause::UndefinedOperands => 2,
            StopCause::Spm => 3,
            StopCause::BreakOp => 4,
            StopCause::SleepMode => 5,
            StopCause::PwmMode => 6,
            StopCause::ExternalTimerClock => 7,
            StopCause::CompareOutput => 8,
            StopCause::ForcedCompare => 9,
            StopCause::InputCapture => 10,
            StopCause::Prescaler => 11,
            StopCause::UsartMode => 12,
            StopCause::SpiSlave => 13,
            StopCause::ExternalMemory => 14,
            StopCause::Watchdog => 15,
            StopCause::Eeprom => 16,
            StopCause::Adc => 17,
            StopCause::Comparator => 18,
            StopCause::Twi => 19,
            StopCause::ExternalInterrupt => 20,
            StopCause::ClockDivision => 21,
            StopCause::AsyncTimer => 22,
            StopCause::MovedVectors => 23,
            StopCause::Usart1 => 24,
            StopCause::ReservedAddress => 25,
            StopCause::PastMemory => 26,
        }
    }

    /// The cause of a number up to 26, and none of 0.
    #[tactic(auto, unfolding(crate::specs::Causes::cause_number))]
    pub fn of(number: u64) -> Option<StopCause>
        requires { number ≤ 26 }
        ensures { stop_number result ≡ number }
    {
        let cause = match number {
            0 => return None,
            1 => StopCause::ReservedOpcode,
            2 => StopCause::UndefinedOperands,
            3 => StopCause::Spm,
            4 => StopCause::BreakOp,
            5 => StopCause::SleepMode,
            6 => StopCause::PwmMode,
            7 => StopCause::ExternalTimerClock,
            8 => StopCause::CompareOutput,
            9 => StopCause::ForcedCompare,
            10 => StopCause::InputCapture,
            11 => StopCause::Prescaler,
            12 => StopCause::UsartMode,
            13 => StopCause::SpiSlave,
            14 => StopCause::ExternalMemory,
            15 => StopCause::Watchdog,
            16 => StopCause::Eeprom,
            17 => StopCause::Adc,
            18 => StopCause::Comparator,
            19 => StopCause::Twi,
            20 => StopCause::ExternalInterrupt,
            21 => StopCause::ClockDivision,
            22 => StopCause::AsyncTimer,
            23 => StopCause::MovedVectors,
            24 => StopCause::Usart1,
            25 => StopCause::ReservedAddress,
            _ => StopCause::PastMemory,
        };
        Some(cause)
    }

    /// The text of the cause, as a trace prints it: at most 20 bytes.
    #[tactic(auto, unfolding(crate::specs::Causes::cause_text))]
    pub fn text(self) -> &'static str
        ensures text { result.now ≡ cause_text self }
        ensures short { length result.now ≤ 20 }
    {
        match self {
            StopCause::ReservedOpcode => "reserved opcode",
            StopCause::UndefinedOperands => "undefined operands",
            StopCause::Spm => "spm",
            StopCause::BreakOp => "break",
            StopCause::SleepMode => "sleep mode",
            StopCause::PwmMode => "pwm mode",
            StopCause::ExternalTimerClock => "external timer clock",
            StopCause::CompareOutput => "compare output",
            StopCause::ForcedCompare => "forced compare",
            StopCause::InputCapture => "input capture enable",
            StopCause::Prescaler => "prescaler control",
            StopCause::UsartMode => "usart mode",
            StopCause::SpiSlave => "spi slave",
            StopCause::ExternalMemory => "external memory",
            StopCause::Watchdog => "watchdog enable",
            StopCause::Eeprom => "eeprom access",
            StopCause::Adc => "adc",
            StopCause::Comparator => "comparator interrupt",
            StopCause::Twi => "twi",
            StopCause::ExternalInterrupt => "external interrupt",
            StopCause::ClockDivision => "clock division",
            StopCause::AsyncTimer => "asynchronous timer",
            StopCause::MovedVectors => "moved vectors",
            StopCause::Usart1 => "usart1",
            StopCause::ReservedAddress => "reserved address",
            StopCause::PastMemory => "address past 0x10FF",
        }
    }
}
