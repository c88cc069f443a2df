// Lists of numbers by which a device is saved and restored: which of them breaks its bound, and lists that are made of
// several devices' lists.
ghost use Rattle.std.specs.Prelude.{◌≡◌, ◌≤◌, ◌+◌, ◌++◌, not, length, take};
ghost use Rattle.std.specs.List.{position};
ghost use Rattle.device_base.specs.Numbers.{all_fit, part};

/// How many numbers a node's core is saved by.
pub const CORE_NUMBERS: usize = 41;

/// How many its four timers are saved by.
pub const TIMER_NUMBERS: usize = 38;

/// How many its ports are saved by: USART0, the serial peripheral interface and the radio.
pub const PORT_NUMBERS: usize = 29;

/// How many its devices are saved by, the timers and the ports.
pub const DEVICE_NUMBERS: usize = TIMER_NUMBERS + PORT_NUMBERS;

/// How many a node is saved by.
pub const NUMBERS: usize = CORE_NUMBERS + DEVICE_NUMBERS;

/// Whether each number is within its bound, by the test of each.
pub fn all_fit(fits: &[bool]) -> bool
    ensures { result ≡ all_fit fits.now }
{
    fits.iter().all(|fit| *fit)
}

/// The place of the first test that failed, from 0 on, where each tells whether a number is within its bound.
pub fn first_outside(fits: &[bool]) -> Option<usize>
    ensures { result ≡ position not fits.now }
{
    fits.iter().position(|fit| !*fit)
}

/// The `N` numbers from the place `at` on.
pub fn part<const N: usize>(numbers: &[u64], at: usize) -> [u64; N]
    requires { at + N ≤ length numbers.now }
    ensures { result ≡ part at N numbers.now }
{
    let mut part = [0; N];
    part.copy_from_slice(&numbers[at..at + N]);
    part
}

/// Puts `N` elements into a longer list, from the place `at` on. What stands before them stays.
pub fn put_part<T: Copy, const N: usize>(all: &mut [T], at: usize, part: &[T; N])
    requires { at + N ≤ length all.old }
    ensures part { take (at + N) all.new ≡ take at all.old ++ part.now }
    ensures len { length all.new ≡ length all.old }
{
    all[at..at + N].copy_from_slice(part);
}
