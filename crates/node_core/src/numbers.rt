// The numbers of a node, by which it is saved and restored.
ghost use Rattle.std.specs.Prelude.{◌≡◌, ◌≤◌, length, nat_le, map};
ghost use Rattle.avr_base.specs.Causes.{stop_number};
ghost use Rattle.node_core.specs.Numbers.{core_fits, core_tail, ends_from, fits};
ghost use Rattle.node_core.specs.Shown.{shown};

use crate::Node;
use crate::machine::Machine;
use air_base::LAST_CYCLE;
use avr_base::StopCause;
use board_io::Board;
use device_base::{CORE_NUMBERS, NUMBERS, first_outside, part, put_part};

// The place of the stop cause's number.
const STOP: usize = 39;

// The number of a cause, 0 where there is none.
fn stop_number(stop: Option<StopCause>) -> u64
    ensures { result ≡ stop_number stop }
{
    match stop {
        Some(cause) => u64::from(cause.number()),
        None => 0,
    }
}

/// The cycle before which no frame and no transfer ends, of a node that has reached `cycle` and has these `numbers`,
/// those of its core first.
pub fn ends_from(cycle: u64, numbers: &[u64]) -> u64
    requires { CORE_NUMBERS ≤ length numbers.now }
    ensures { result ≡ ends_from cycle numbers.now }
{
    if numbers[STOP] == 0 { cycle } else { 0 }
}

// The general registers as numbers.
fn register_numbers(r: &[u8; 32]) -> [u64; 32]
    ensures { result ≡ r.now }
{
    let mut numbers = [0; 32];
    for d in 0..32 {
        numbers[d] = u64::from(r[d]);
    }
    numbers
}

impl Machine {
    // The numbers of its core behind the general registers.
    fn core_tail(&self) -> [u64; 9]
        ensures { result ≡ core_tail (shown self.now) }
    {
        [
            u64::from(self.cpu.sreg.bits),
            u64::from(self.cpu.sp),
            u64::from(self.cpu.pc),
            u64::from(self.cpu.rampz),
            u64::from(self.wait),
            u64::from(self.owed),
            u64::from(self.asleep),
            stop_number(self.stop),
            self.count,
        ]
    }
}

// Whether each of the 33 numbers of registers is a byte.
fn register_fits(numbers: &[u64; 33]) -> [bool; 33]
    ensures { result ≡ map (λ byte. nat_le byte 255) numbers.now }
{
    let mut fits = [false; 33];
    for d in 0..33 {
        fits[d] = numbers[d] <= 255;
    }
    fits
}

/// A test for each of these `numbers` of a core, whether it is within its bound.
#[tactic(auto, unfolding(crate::specs::Numbers::core_fits))]
pub fn core_fits(numbers: &[u64; CORE_NUMBERS]) -> [bool; CORE_NUMBERS]
    ensures { result ≡ core_fits numbers.now }
{
    let mut fits = [false; CORE_NUMBERS];
    put_part(&mut fits, 0, &register_fits(&part(numbers, 0)));
    let tail = [
        numbers[33] <= 65535,
        numbers[34] <= 65535,
        numbers[35] <= 1,
        numbers[36] <= 7,
        numbers[37] <= 1,
        numbers[38] <= 1,
        numbers[39] <= 26,
        numbers[40] <= LAST_CYCLE,
    ];
    put_part(&mut fits, 33, &tail);
    fits
}

impl Node {
    ghost use Rattle.node_core.specs.Numbers.{first_outside, numbers_of};
    ghost use Rattle.board_io.specs.Kept.{io_at};

    /// Its numbers: r0 to r31, SREG, SP, PC, RAMPZ, the cycles left of the last instruction, as 0 or 1 whether an
    /// instruction is owed and whether it sleeps, the number of the cause that stopped it (0 for none), and how many
    /// instructions it executed; then those of timers 0, 2, 1 and 3, of USART0, of the serial peripheral interface and
    /// of the radio, each in the order of its `numbers`.
    pub fn numbers(&self) -> [u64; NUMBERS]
        ensures { result ≡ numbers_of self.now.state }
    {
        let mut all = [0; NUMBERS];
        put_part(&mut all, 0, &register_numbers(&self.machine.cpu.r));
        put_part(&mut all, 32, &self.machine.core_tail());
        put_part(&mut all, CORE_NUMBERS, &self.machine.bus.io.numbers());
        all
    }

    /// The byte that its board itself keeps at the data address `at`, 0x20 to 0xFF, 0 where it keeps none.
    pub fn io(&self, at: u16) -> u8
        requires low { 0x20 ≤ at }
        requires high { at ≤ 0xFF }
        ensures { result ≡ io_at at self.now.state.board }
    {
        self.machine.bus.io.io(at as u8)
    }

    // The place of the first of these numbers, 0 to 107, that is outside its bound, of a node that has reached a cycle.
    pub(crate) fn first_outside(cycle: u64, numbers: &[u64; NUMBERS]) -> Option<u8>
        ensures { result ≡ first_outside cycle numbers.now }
    {
        match first_outside(&fits(cycle, numbers)) {
            Some(place) => Some(place as u8),
            None => None,
        }
    }
}

// A test for each number, whether it is within its bound.
#[tactic(auto, unfolding(crate::specs::Numbers::fits))]
fn fits(cycle: u64, numbers: &[u64; NUMBERS]) -> [bool; NUMBERS]
    ensures { result ≡ fits cycle numbers.now }
{
    let mut all = [false; NUMBERS];
    put_part(&mut all, 0, &core_fits(&part(numbers, 0)));
    put_part(
        &mut all,
        CORE_NUMBERS,
        &Board::fits(ends_from(cycle, numbers), &part(numbers, CORE_NUMBERS)),
    );
    all
}
