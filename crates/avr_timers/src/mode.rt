// The modes of a timer.
ghost use Rattle.std.specs.Prelude.{◌≡◌, ◌≤◌};

/// The modes of a timer that are simulated (ATmega128 datasheet, "Waveform Generation Mode Bit Description"). The
/// others drive pins.
#[derive(Clone, Copy)]
pub enum Mode16 {
    /// Mode 0: the counter runs to 0xFFFF.
    Normal,
    /// Mode 4: the counter is cleared at the first compare value.
    ClearAtCompare,
    /// Mode 12: the counter is cleared at ICR, which also sets a flag.
    ClearAtIcr,
}

impl Mode16 {
    ghost use Rattle.avr_timers.specs.Mode.{mode_of, number_of};

    /// The number WGM3:0 of the mode.
    pub fn number(self) -> u8
        ensures value { result ≡ number_of self }
        ensures most { result ≤ 12 }
    {
        match self {
            Mode16::Normal => 0,
            Mode16::ClearAtCompare => 4,
            Mode16::ClearAtIcr => 12,
        }
    }

    /// The mode of a number WGM3:0. `None` where that mode is not simulated.
    pub fn numbered(number: u8) -> Option<Mode16>
        ensures { result ≡ mode_of number }
    {
        match number {
            0 => Some(Mode16::Normal),
            4 => Some(Mode16::ClearAtCompare),
            12 => Some(Mode16::ClearAtIcr),
            _ => None,
        }
    }
}
