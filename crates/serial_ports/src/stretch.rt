// Stretches of arriving bytes.
ghost use Rattle.std.specs.Prelude.{◌≡◌, ℕ, ◌+◌, ◌-◌, ◌*◌, ◌<◌, ◌≤◌, nat_le, true, None, length, slice_get, is_some, IfOk, IfSome};
ghost use Rattle.air_base.specs.Bounds.{LAST_CYCLE, LAST_END};
ghost use Rattle.serial_ports.specs.InOrder.{behind};
ghost use Rattle.serial_ports.specs.declared.stretch.TheConstants.{LONGEST_EVERY, MOST_ARRIVALS};
ghost use Rattle.serial_ports.specs.Script.{IsByteOf, IsQuiet, stretch_byte};

use avr_base::NoMemory;
use std::marker::Model;

/// The most cycles from one byte of a stretch to the next.
pub const LONGEST_EVERY: u64 = 65_535;

/// The most bytes of a stretch, and of all stretches of a network.
pub const MOST_ARRIVALS: usize = 65_536;

/// Bytes that arrive at a USART from outside at equal distances: byte i in cycle `at + i * every`. A contract sees it as
/// its `StretchBytes`.
pub struct Stretch {
    at: u64,
    every: u64,
    bytes: Vec<u8>,
}

// By hand, so that an exit that lets go of one, here and in the crates above, has one call to prove.
impl Drop for Stretch {
    fn drop(self) {
        let Stretch {
            at: _,
            every: _,
            bytes: _,
        } = self;
    }
}

impl Model for Stretch {
    ghost use Rattle.serial_ports.specs.Script.{IsStretch, StretchBytes};

    ghost Value = { StretchBytes };

    ghost view = { λ s. record { at = s.at; every = s.every; bytes = s.bytes.items } };

    ghost invariant = { λ s. IsStretch (record { at = s.at; every = s.every; bytes = s.bytes.items }) };
}

impl Stretch {
    /// The stretch of `bytes`, at most 65,536 of them: the first arrives in cycle `at`, at most 2^40, and the others
    /// `every` cycles, 1 to 65,535, one after another.
    pub fn new(at: u64, every: u64, bytes: Vec<u8>) -> Stretch
        requires at { at ≤ LAST_CYCLE }
        requires some { 1 ≤ every }
        requires every { every ≤ LONGEST_EVERY }
        requires few { length bytes.items ≤ MOST_ARRIVALS }
        ensures { result ≡ record { at = at; every = every; bytes = bytes.items } }
    {
        Stretch { at, every, bytes }
    }

    // The byte with a number.
    fn byte(&self, number: u64) -> Option<u8>
        ensures { result ≡ slice_get self.now.bytes number }
    {
        self.bytes.get(number as usize).copied()
    }

    // The number of a byte that arrives in a cycle, were there so many of them.
    fn number_at(&self, cycle: u64) -> Option<u64>
        ensures some { 1 ≤ self.now.every }
        ensures found { IfSome result (λ i. cycle ≡ self.now.at + i * self.now.every) }
        ensures none { result ≡ None → (i : ℕ) → cycle ≡ self.now.at + i * self.now.every → ⊥ }
    {
        if cycle >= self.at && (cycle - self.at) % self.every == 0 {
            Some((cycle - self.at) / self.every)
        } else {
            None
        }
    }

    /// The byte that arrives in `cycle`, `None` exactly where that is no byte's cycle.
    pub fn byte_at(&self, cycle: u64) -> Option<u8>
        ensures value { result ≡ stretch_byte self.now cycle }
        ensures law { IsByteOf self.now cycle result }
    {
        match self.number_at(cycle) {
            Some(number) => self.byte(number),
            None => None,
        }
    }

    // How many bytes arrive before a cycle, were there enough of them.
    fn number_before(&self, cycle: u64) -> u64
        ensures before { (i : ℕ) → i < result → self.now.at + i * self.now.every < cycle }
        ensures behind { cycle ≤ self.now.at + result * self.now.every }
    {
        if cycle <= self.at {
            0
        } else {
            (cycle - self.at - 1) / self.every + 1
        }
    }

    // In how many cycles from one on no byte arrives.
    fn rest(&self, cycle: u64) -> Option<u64>
        ensures { IsQuiet self.now cycle result }
    {
        if self.bytes.is_empty() {
            return None;
        }
        let number = self.number_before(cycle);
        if number < self.bytes.len() as u64 {
            Some(self.at + number * self.every - cycle)
        } else {
            None
        }
    }

    /// In how many of the cycles from `cycle` on, of at most `most`, no byte arrives. With no bytes it only compares.
    pub fn quiet(&self, cycle: u64, most: u64) -> u64
        requires { cycle + most ≤ LAST_END }
        ensures within { result ≤ most }
        ensures none { (i : ℕ) → i < result → stretch_byte self.now (cycle + i) ≡ None }
        ensures first { result < most → is_some (stretch_byte self.now (cycle + result)) ≡ true }
    {
        match self.rest(cycle) {
            Some(rest) if rest < most => rest,
            _ => most,
        }
    }

    /// Whether it has a byte, and none before the cycle `from`.
    pub(crate) fn begins_by(&self, from: u64) -> bool
        ensures some { 1 ≤ self.now.every }
        ensures begins { result ≡ true → (from ≤ self.now.at) × (1 ≤ length self.now.bytes) }
    {
        from <= self.at && !self.bytes.is_empty()
    }

    /// The cycle behind its last byte, where it has one.
    #[inline]
    pub(crate) fn behind(&self) -> u64
        ensures { result ≡ behind self.now }
    {
        self.at + (self.bytes.len() as u64).saturating_sub(1) * self.every + 1
    }

    /// Whether that cycle has come.
    #[inline]
    pub(crate) fn is_over(&self, cycle: u64) -> bool
        ensures { result ≡ nat_le (behind self.now) cycle }
    {
        self.behind() <= cycle
    }

    /// An equal stretch. `Err` only for want of memory.
    pub fn copy(&self) -> Result<Stretch, NoMemory>
        ensures { IfOk result (λ stretch. stretch ≡ self.now) }
    {
        Ok(Stretch {
            at: self.at,
            every: self.every,
            bytes: self.bytes.clone()?,
        })
    }
}
