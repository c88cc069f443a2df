// A store of files over memory, whose reads fail where it is told.
ghost use Rattle.std.specs.Prelude.{◌≡◌, ◌<◌, ◌≤◌, [], true, false, Some, None, length, IfOk, IfSome, IfNone, IsErrOf};
ghost use Rattle.memory_io.specs.Files.{file_of, fails_at, held_by};
ghost use Rattle.sim_io.specs.Outside.{Rose};

use sim_io::{Name, ReadFault, Store};
use std::alloc::Global;
use std::marker::Model;
use std::snapshot::Snapshot;

/// A store over memory. It holds the first file of each name, and the calls of `read` whose numbers, from 0, it was
/// given fail. A contract sees it as a `MemoryStore`.
#[derive(Drop)]
pub struct MemStore {
    files: Vec<(Name, Vec<u8>)>,
    fail: Vec<u64>,
    calls: u64,
    count: u64,
    failed: Option<Snapshot<Name>>,
}

impl Model for MemStore {
    ghost use Rattle.memory_io.specs.Files.{MemoryStore};
    ghost use Rattle.sim_io.specs.Failed.{last_failed};

    ghost Value = { MemoryStore };

    ghost view = { λ s. record {
      files = s.files.items;
      fail = s.fail.items;
      calls = s.calls;
      faults = s.count;
      failed = last_failed s.failed;
    } };
}

// The bytes of the first file of this name.
fn find<'a>(files: &'a [(Name, Vec<u8>)], name: &str) -> Option<&'a Vec<u8>>
    ensures found { IfSome result (λ bytes. file_of files.now name.now ≡ Some bytes.now.items) }
    ensures none { IfNone result (file_of files.now name.now ≡ None) }
{
    for (held, bytes) in files {
        if held.as_str() == name {
            return Some(bytes);
        }
    }
    None
}

impl MemStore {
    /// A store of these files, of which the calls in `fail` will fail. Calls are counted from 0; one that answers
    /// `NoMemory` changes nothing and is not counted.
    pub fn new(files: Vec<(Name, Vec<u8>)>, fail: Vec<u64>) -> Self
        ensures { result ≡ record { files = files.items; fail = fail.items; calls = 0; faults = 0; failed = [] } }
    {
        MemStore {
            files,
            fail,
            calls: 0,
            count: 0,
            failed: None,
        }
    }

    // The answer of the next call, which then has to be counted.
    fn answer(&self, alloc: Global, name: &str, most: usize) -> Result<Vec<u8>, ReadFault>
        ensures fails { IsErrOf result ReadFault.Failed → fails_at self.now name.now ≡ true }
        ensures goes_on { (IsErrOf result ReadFault.Failed → ⊥) → (IsErrOf result ReadFault.NoMemory → ⊥)
            → fails_at self.now name.now ≡ false }
        ensures bytes { IfOk result (λ bytes. held_by self.now name.now ≡ Some bytes.items) }
        ensures fits { IfOk result (λ bytes. length bytes.items ≤ most) }
        ensures too_long { IsErrOf result ReadFault.TooLong
            → IfSome (held_by self.now name.now) (λ file. most < length file) }
    {
        if self.fail.contains(&self.calls) {
            return Err(ReadFault::Failed);
        }
        let Some(bytes) = find(&self.files, name) else {
            return Err(ReadFault::Failed);
        };
        if bytes.len() > most {
            return Err(ReadFault::TooLong);
        }
        Ok(bytes.to_vec(alloc)?)
    }
}

impl Store for MemStore {
    ghost use Rattle.memory_io.specs.Files.{ReadGives, held_by};

    ghost held = { held_by };

    ghost faults = { λ s. s.faults };

    ghost failed = { λ s. s.failed };

    fn read(&mut self, alloc: Global, name: &str, most: usize) -> Result<Vec<u8>, ReadFault>
        ensures gives { ReadGives self.old name.now result self.new }

        ensures held { held_by self.new ≡ held_by self.old }
        ensures bytes { IfOk result (λ bytes. IfSome (held_by self.old name.now) (λ file. bytes.items ≡ file)) }
        ensures fits { IfOk result (λ bytes. length bytes.items ≤ most) }
        ensures too_long { IsErrOf result ReadFault.TooLong
            → IfSome (held_by self.old name.now) (λ file. most < length file) }
        ensures later { self.old.faults ≤ self.new.faults }
        ensures rose { IsErrOf result ReadFault.Failed → Rose self.old.faults self.new.faults }
        ensures failed { IsErrOf result ReadFault.Failed → self.new.failed ≡ name.now }
        ensures as_before { (IsErrOf result ReadFault.Failed → ⊥)
            → (self.new.faults ≡ self.old.faults) × (self.new.failed ≡ self.old.failed) }
    {
        let asked = Name::new(alloc, name)?;
        match self.answer(alloc, name, most) {
            Ok(bytes) => {
                self.calls = self.calls.saturating_add(1);
                Ok(bytes)
            }
            Err(ReadFault::TooLong) => {
                self.calls = self.calls.saturating_add(1);
                Err(ReadFault::TooLong)
            }
            Err(ReadFault::NoMemory) => Err(ReadFault::NoMemory),
            Err(ReadFault::Failed) => {
                self.calls = self.calls.saturating_add(1);
                self.count = self.count.saturating_add(1);
                self.failed = Some(Snapshot::of(&asked));
                Err(ReadFault::Failed)
            }
        }
    }
}
