// Cycles in which a node only waits or sleeps, many at once.
ghost use Rattle.std.specs.Prelude.{◌≡◌, ◌≤◌, ◌+◌, None, true};
ghost use Rattle.air_base.specs.Bounds.{LAST_CYCLE};
ghost use Rattle.node_core.specs.Interrupts.{due};
ghost use Rattle.node_core.specs.Pace.Midway.{IsRested};
ghost use Rattle.node_core.specs.Shown.{shown};

use crate::machine::Machine;

impl Machine {
    // Cycles of an instruction or an entry that are counted off, of at most so many: how many it were.
    #[inline(always)]
    fn wait_out(&mut self, cycle: u64, most: u64) -> u64
        requires going { self.old.stop ≡ None }
        requires now { self.old.bus.io.clock ≡ cycle }
        requires early { cycle + most ≤ LAST_CYCLE }
        ensures rested { IsRested cycle result self.old self.new }
        ensures within { result ≤ most }
    {
        let wait = self.wait;
        let calm = self.script.quiet(cycle, most.min(u64::from(wait)));
        let n = self.bus.io.leap_up_to(calm);
        self.wait = wait - n as u8;
        n
    }

    // Cycles of sleep, of at most so many, in which no interrupt becomes due.
    fn sleep_on(&mut self, cycle: u64, most: u64) -> u64
        requires going { self.old.stop ≡ None }
        requires now { self.old.bus.io.clock ≡ cycle }
        requires early { cycle + most ≤ LAST_CYCLE }
        requires free { self.old.wait ≡ 0 }
        requires asleep { self.old.asleep ≡ true }
        requires none { due (shown self.old) ≡ None }
        ensures rested { IsRested cycle result self.old self.new }
        ensures within { result ≤ most }
    {
        let calm = self.script.quiet(cycle, most);
        self.bus.io.leap_up_to(calm)
    }

    /// Cycles in which the node only waits or sleeps, from `cycle` on and of at most `most`: how many it were, 0 where
    /// the next one is to be taken by itself.
    #[inline(always)]
    pub fn rest(&mut self, cycle: u64, most: u64) -> u64
        requires going { self.old.stop ≡ None }
        requires now { self.old.bus.io.clock ≡ cycle }
        requires early { cycle + most ≤ LAST_CYCLE }
        ensures rested { IsRested cycle result self.old self.new }
        ensures within { result ≤ most }
    {
        if self.wait > 0 {
            return self.wait_out(cycle, most);
        }
        if self.asleep && self.due().is_none() {
            return self.sleep_on(cycle, most);
        }
        0
    }
}
