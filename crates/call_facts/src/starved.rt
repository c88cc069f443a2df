// A store whose reads get no memory.
ghost use Rattle.std.specs.Prelude.{[], None};

use sim_io::{ReadFault, Store};
use std::alloc::Global;

/// A store that has no memory for any file.
#[derive(Drop)]
pub struct Starved;

impl Store for Starved {
    ghost held = { λ s name. None };

    ghost faults = { λ s. 0 };

    ghost failed = { λ s. [] };

    fn read(&mut self, alloc: Global, name: &str, most: usize) -> Result<Vec<u8>, ReadFault> {
        // It looks at nothing, since it has no memory for any file.
        let _ = alloc;
        let _ = name;
        let _ = most;
        Err(ReadFault::NoMemory)
    }
}
