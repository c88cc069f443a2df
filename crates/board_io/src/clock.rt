// The clock of a board that is accessed.
ghost use Rattle.std.specs.Prelude.{◌≡◌, ◌≤◌};
ghost use Rattle.air_base.specs.Bounds.{LAST_END};

use std::marker::Model;

/// What a board's clock shows: the number of a cycle, at most 2^41.
#[derive(Clone, Copy)]
pub struct Clock {
    cycle: u64,
}

impl Model for Clock {
    ghost use Rattle.std.specs.Prelude.{ℕ, ◌≤◌};
    ghost use Rattle.air_base.specs.Bounds.{LAST_END};

    ghost Value = { ℕ };

    ghost view = { λ c. c.cycle };

    ghost invariant = { λ c. c.cycle ≤ LAST_END };

    ghost inverse = { λ n. record { cycle = n } };
}

impl Clock {
    /// A clock that shows this cycle.
    pub fn new(cycle: u64) -> Clock
        requires { cycle ≤ LAST_END }
        ensures { result ≡ cycle }
    {
        Clock { cycle }
    }

    /// The number of its cycle.
    pub fn get(self) -> u64
        ensures value { result ≡ self }
        ensures early { result ≤ LAST_END }
    {
        self.cycle
    }
}
