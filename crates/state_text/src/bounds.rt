// The bounds of a node's numbers and bytes.
ghost use Rattle.std.specs.Prelude.{◌≡◌};
ghost use Rattle.state_text.specs.Bounds.{NodeRules};

use device_base::{CORE_NUMBERS, PORT_NUMBERS, TIMER_NUMBERS};

/// What the numbers and bytes of a node have to keep. The crate that has the node says it.
pub trait Bounds {
    /// Which lines of a node keep their bounds.
    ghost rules: { Self → NodeRules };

    /// Whether each of these numbers of a core keeps its bound.
    fn is_core(&self, core: &[u64; CORE_NUMBERS]) -> bool
        ensures { result ≡ (rules self.now).core core.now };

    /// Whether each of these numbers of timers keeps its bound.
    fn are_timers(&self, timers: &[u64; TIMER_NUMBERS]) -> bool
        ensures { result ≡ (rules self.now).timers timers.now };

    /// Whether each of these numbers of ports keeps its bound in a state at this cycle, where the core of their node
    /// has these numbers.
    fn are_ports(&self, cycle: u64, core: &[u64; CORE_NUMBERS], ports: &[u64; PORT_NUMBERS]) -> bool
        ensures { result ≡ (rules self.now).ports cycle core.now ports.now };

    /// Whether the board can read these bytes, from 0x20 on.
    fn are_readable(&self, io: &[u8]) -> bool
        ensures { result ≡ (rules self.now).io io.now };
}
