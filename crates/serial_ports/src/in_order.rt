// Stretches of arriving bytes that stand in order.
ghost use Rattle.std.specs.Prelude.{◌≡◌, ℕ, ◌+◌, ◌<◌, ◌≤◌, nat_le, true, false, None, length, option_map, is_some, IfOk};
ghost use Rattle.std.specs.List.Sorted.{IsPartitionPoint};
ghost use Rattle.air_base.specs.Bounds.{LAST_END};
ghost use Rattle.serial_ports.specs.InOrder.{AreInOrder, IsNext, behind};
ghost use Rattle.serial_ports.specs.Script.{Arrives, first_byte};

use crate::Stretch;
use crate::script::copies;
use avr_base::NoMemory;
use std::marker::Model;

/// Stretches of a byte at least, of which each begins behind the last byte of the one before. So the next byte is that of
/// the first stretch that is not over, and a search by halves finds it.
pub struct InOrder {
    stretches: Vec<Stretch>,
}

// By hand, so that an exit that lets go of one, here and in the crates above, has one call to prove.
impl Drop for InOrder {
    fn drop(self) {
        let InOrder { stretches: _ } = self;
    }
}

impl Model for InOrder {
    ghost use Rattle.std.specs.Prelude.{List};
    ghost use Rattle.serial_ports.specs.InOrder.{AreInOrder};
    ghost use Rattle.serial_ports.specs.Script.{StretchBytes};

    ghost Value = { List StretchBytes };

    ghost view = { λ s. s.stretches.items };

    ghost invariant = { λ s. AreInOrder s.stretches.items };
}

/// Whether stretches have a byte each, and each begins behind the last byte of the one before.
pub fn are_in_order(stretches: &[Stretch]) -> bool
    ensures { result ≡ true → AreInOrder stretches.now }
{
    let mut from = 0;
    for stretch in stretches {
        if !stretch.begins_by(from) {
            return false;
        }
        from = stretch.behind();
    }
    true
}

// How many of the stretches are over by a cycle.
fn count_over(stretches: &[Stretch], cycle: u64) -> usize
    requires { AreInOrder stretches.now }
    ensures bound { result ≤ length stretches.now }
    ensures point { IsPartitionPoint (λ s. nat_le (behind s) cycle ≡ true) (λ s. nat_le (behind s) cycle ≡ false) stretches.now result }
{
    stretches.partition_point(
        |stretch: &Stretch| -> bool
            ensures { result ≡ nat_le (behind stretch.now) cycle }
        { stretch.is_over(cycle) },
    )
}

impl InOrder {
    /// These stretches.
    pub fn of(stretches: Vec<Stretch>) -> InOrder
        requires { AreInOrder stretches.items }
        ensures { result ≡ stretches.items }
    {
        InOrder { stretches }
    }

    // The first stretch that is not over by a cycle.
    fn next(&self, cycle: u64) -> Option<&Stretch>
        ensures order { AreInOrder self.now }
        ensures next { IsNext self.now cycle (option_map (λ x. x.now) result) }
    {
        self.stretches.get(count_over(&self.stretches, cycle))
    }

    // In a call of its own, as the next one: then what asks for the bytes of a script without any is small.
    /// The byte that arrives in `cycle`, `None` exactly where that is no byte's cycle.
    #[inline(never)]
    pub fn byte_at(&self, cycle: u64) -> Option<u8>
        ensures value { result ≡ first_byte self.now cycle }
        ensures law { Arrives (record { stretches = self.now }) cycle result }
    {
        match self.next(cycle) {
            Some(stretch) => stretch.byte_at(cycle),
            None => None,
        }
    }

    /// In how many of the cycles from `cycle` on, of at most `most`, no byte arrives.
    #[inline(never)]
    pub fn quiet(&self, cycle: u64, most: u64) -> u64
        requires { cycle + most ≤ LAST_END }
        ensures within { result ≤ most }
        ensures none { (i : ℕ) → i < result → first_byte self.now (cycle + i) ≡ None }
        ensures first { result < most → is_some (first_byte self.now (cycle + result)) ≡ true }
    {
        match self.next(cycle) {
            Some(stretch) => stretch.quiet(cycle, most),
            None => most,
        }
    }

    /// Equal stretches. `Err` only for want of memory.
    pub fn copy(&self) -> Result<InOrder, NoMemory>
        ensures { IfOk result (λ copy. copy ≡ self.now) }
    {
        let stretches = copies(*self.stretches.allocator(), &self.stretches)?;
        Ok(InOrder { stretches })
    }
}
