// Scripts of arriving bytes.
ghost use Rattle.std.specs.Prelude.{◌≡◌, ℕ, ◌+◌, ◌<◌, ◌≤◌, true, None, [], ◌∷◌, length, is_some, IfOk};
ghost use Rattle.air_base.specs.Bounds.{LAST_CYCLE, LAST_END};
ghost use Rattle.serial_ports.specs.declared.stretch.TheConstants.{LONGEST_EVERY, MOST_ARRIVALS};
ghost use Rattle.serial_ports.specs.Script.{Arrives, first_byte, script_byte};

use crate::Stretch;
use crate::in_order::{InOrder, are_in_order};
use avr_base::NoMemory;
use std::alloc::Global;
use std::marker::Model;

// No stretch or one, as most scripts have, is held without a list in memory: where no byte comes, one test tells it. Of
// those in order, as the moves of a sweep are, the next is searched for by halves; of others all are looked through.
#[derive(Drop)]
enum Stretches {
    Nothing,
    One(Stretch),
    InOrder(InOrder),
    Many(Vec<Stretch>),
}

/// The bytes that arrive at a USART from outside, in stretches: in a cycle the byte of the first stretch that has one. A
/// contract sees it as its `ScriptBytes`.
pub struct Script {
    stretches: Stretches,
}

// By hand, so that an exit that lets go of one, here and in the crates above, has one call to prove.
impl Drop for Script {
    fn drop(self) {
        let Script { stretches: _ } = self;
    }
}

impl Model for Script {
    ghost use Rattle.serial_ports.specs.Script.{ScriptBytes};
    ghost use Rattle.serial_ports.specs.Stretches.{stretches_of};

    ghost Value = { ScriptBytes };

    ghost view = { λ s. record { stretches = stretches_of s.stretches } };
}

// The byte of the first of the stretches that has one in a cycle.
fn first_byte(stretches: &[Stretch], cycle: u64) -> Option<u8>
    ensures value { result ≡ first_byte stretches.now cycle }
    ensures law { Arrives (record { stretches = stretches.now }) cycle result }
{
    for stretch in stretches {
        if let Some(byte) = stretch.byte_at(cycle) {
            return Some(byte);
        }
    }
    None
}

// In how many of the cycles from one on, of at most `most`, none of the stretches has a byte.
fn quiet(stretches: &[Stretch], cycle: u64, most: u64) -> u64
    requires { cycle + most ≤ LAST_END }
    ensures within { result ≤ most }
    ensures none { (i : ℕ) → i < result → first_byte stretches.now (cycle + i) ≡ None }
    ensures first { result < most → is_some (first_byte stretches.now (cycle + result)) ≡ true }
{
    let mut quiet = most;
    for stretch in stretches {
        quiet = stretch.quiet(cycle, quiet);
    }
    quiet
}

// Equal stretches.
pub(crate) fn copies(alloc: Global, stretches: &[Stretch]) -> Result<Vec<Stretch>, NoMemory>
    ensures { IfOk result (λ copies. copies.items ≡ stretches.now) }
{
    let mut copies = Vec::new(alloc);
    for stretch in stretches {
        if copies.push(stretch.copy()?).is_err() {
            return Err(NoMemory);
        }
    }
    Ok(copies)
}

impl Script {
    /// The script of one stretch of `bytes`, at most 65,536 of them: the first arrives in cycle `at`, at most 2^40, and
    /// the others `every` cycles, 1 to 65,535, one after another.
    pub fn new(at: u64, every: u64, bytes: Vec<u8>) -> Script
        requires at { at ≤ LAST_CYCLE }
        requires some { 1 ≤ every }
        requires every { every ≤ LONGEST_EVERY }
        requires few { length bytes.items ≤ MOST_ARRIVALS }
        ensures { result ≡ record { stretches = record { at = at; every = every; bytes = bytes.items } ∷ [] } }
    {
        Script {
            stretches: Stretches::One(Stretch::new(at, every, bytes)),
        }
    }

    /// The script of these stretches, in their order. With none of them no byte arrives.
    pub fn of(stretches: Vec<Stretch>) -> Script
        ensures { result ≡ record { stretches = stretches.items } }
    {
        let stretches = if stretches.is_empty() {
            Stretches::Nothing
        } else if are_in_order(&stretches) {
            Stretches::InOrder(InOrder::of(stretches))
        } else {
            Stretches::Many(stretches)
        };
        Script { stretches }
    }

    /// The byte that arrives in `cycle`, `None` exactly where that is no byte's cycle.
    pub fn byte_at(&self, cycle: u64) -> Option<u8>
        ensures value { result ≡ script_byte self.now cycle }
        ensures law { Arrives self.now cycle result }
    {
        match &self.stretches {
            Stretches::Nothing => None,
            Stretches::One(stretch) => stretch.byte_at(cycle),
            Stretches::InOrder(stretches) => stretches.byte_at(cycle),
            Stretches::Many(stretches) => first_byte(stretches, cycle),
        }
    }

    /// In how many of the cycles from `cycle` on, of at most `most`, no byte arrives. With no bytes it only compares.
    #[inline]
    pub fn quiet(&self, cycle: u64, most: u64) -> u64
        requires { cycle + most ≤ LAST_END }
        ensures within { result ≤ most }
        ensures none { (i : ℕ) → i < result → script_byte self.now (cycle + i) ≡ None }
        ensures first { result < most → is_some (script_byte self.now (cycle + result)) ≡ true }
    {
        match &self.stretches {
            Stretches::Nothing => most,
            Stretches::One(stretch) => stretch.quiet(cycle, most),
            Stretches::InOrder(stretches) => stretches.quiet(cycle, most),
            Stretches::Many(stretches) => quiet(stretches, cycle, most),
        }
    }

    /// An equal script. `Err` only for want of memory.
    pub fn copy(&self) -> Result<Script, NoMemory>
        ensures { IfOk result (λ script. script ≡ self.now) }
    {
        let stretches = match &self.stretches {
            Stretches::Nothing => Stretches::Nothing,
            Stretches::One(stretch) => Stretches::One(stretch.copy()?),
            Stretches::InOrder(stretches) => Stretches::InOrder(stretches.copy()?),
            Stretches::Many(stretches) => {
                Stretches::Many(copies(*stretches.allocator(), stretches)?)
            }
        };
        Ok(Script { stretches })
    }
}
