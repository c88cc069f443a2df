// Where files come from.
ghost use Rattle.std.specs.Prelude.{◌≡◌, ◌<◌, ◌≤◌, List, ℕ, Option, length, IfOk, IfSome, IsErrOf};
ghost use Rattle.sim_io.specs.declared.store.ReadFault.TheVariants.{NoMemory};
ghost use Rattle.sim_io.specs.Outside.{Rose};

use std::alloc::{AllocError, Global};

/// Why a file was not read.
#[derive(Clone, Copy)]
pub enum ReadFault {
    /// There is no such file, or it could not be read. The store's count rose.
    Failed,
    /// The file is longer than was asked for.
    TooLong,
    /// Want of memory.
    NoMemory,
}

impl From<AllocError> for ReadFault {
    ghost from_gives = { λ _ fault. fault ≡ NoMemory };

    fn from(_error: AllocError) -> Self {
        ReadFault::NoMemory
    }
}

/// A store of files, read whole by name.
pub trait Store {
    /// The bytes of the file of this name. `None` where the store does not tell, or has no such file.
    ghost held: { Self → List ℕ → Option (List ℕ) };

    /// How many reads failed. It stands still at 2^64 - 1.
    ghost faults: { Self → ℕ };

    /// The name in the last read that failed; empty before the first.
    ghost failed: { Self → List ℕ };

    /// Reads the whole file `name`, of at most `most` bytes. A missing file is `Failed`, which raises the count and
    /// keeps the name; no other answer changes either, and no call changes what is held. `TooLong` is a file of more
    /// than `most` bytes.
    fn read(&mut self, alloc: Global, name: &str, most: usize) -> Result<Vec<u8>, ReadFault>
        ensures held { held self.new ≡ held self.old }

        ensures bytes { IfOk result (λ bytes. IfSome (held self.old name.now) (λ file. bytes.items ≡ file)) }
        ensures fits { IfOk result (λ bytes. length bytes.items ≤ most) }
        ensures too_long { IsErrOf result ReadFault.TooLong
            → IfSome (held self.old name.now) (λ file. most < length file) }

        ensures later { faults self.old ≤ faults self.new }
        ensures rose { IsErrOf result ReadFault.Failed → Rose (faults self.old) (faults self.new) }
        ensures failed { IsErrOf result ReadFault.Failed → failed self.new ≡ name.now }
        ensures as_before { (IsErrOf result ReadFault.Failed → ⊥)
            → (faults self.new ≡ faults self.old) × (failed self.new ≡ failed self.old) };
}
