// The files of the real system.
ghost use Rattle.std.specs.Prelude.{◌≡◌, ◌≢◌, ◌<◌, ◌≤◌, [], None, length, IfOk, IfSome, IsErrOf};
ghost use Rattle.std.specs.IoError.{error_kind};

use crate::{Name, ReadFault, Store};
use std::alloc::Global;
use std::io::{ErrorKind, Read};
use std::marker::Model;
use std::rt::Files;
use std::snapshot::Snapshot;
use std::{fs, io};

/// The files of the directory that the program runs in. A contract sees its faults alone: what a real file holds is
/// not told.
#[derive(Drop)]
pub struct DirStore<'a, R: Files> {
    files: &'a R,
    count: u64,
    failed: Option<Snapshot<Name>>,
}

impl<'a, R: Files> Model for DirStore<'a, R> {
    ghost use Rattle.sim_io.specs.Failed.{StoreFaults, last_failed};

    ghost Value = { StoreFaults };

    ghost view = { λ s. record { faults = s.count; failed = last_failed s.failed } };
}

impl<'a, R: Files> DirStore<'a, R> {
    /// The files that the runtime reaches. No read has failed yet.
    pub fn new(rt: &'a R) -> Self
        ensures { result ≡ record { faults = 0; failed = [] } }
    {
        DirStore {
            files: rt,
            count: 0,
            failed: None,
        }
    }
}

// An error of the system: want of memory is told apart.
fn fault_of(error: &io::Error) -> ReadFault
    ensures memory { error_kind error.now ≡ ErrorKind.OutOfMemory → result ≡ ReadFault.NoMemory }
    ensures other { error_kind error.now ≢ ErrorKind.OutOfMemory → result ≡ ReadFault.Failed }
{
    if error.kind() == ErrorKind::OutOfMemory {
        return ReadFault::NoMemory;
    }
    ReadFault::Failed
}

/// All that a reader has left, of at most `most` bytes: it takes one byte past them at most. A read that a signal cut
/// off is made again.
pub fn read_whole<F: Read + Drop>(alloc: Global, file: F, most: usize) -> Result<Vec<u8>, ReadFault>
    ensures fits { IfOk result (λ bytes. length bytes.items ≤ most) }
    ensures whole { IfOk result (λ bytes. IfSome (F.remaining file) (λ left. bytes.items ≡ left)) }
    ensures too_long { IsErrOf result ReadFault.TooLong → IfSome (F.remaining file) (λ left. most < length left) }
{
    let mut bytes = Vec::new(alloc);
    let mut front = file.take((most as u64).saturating_add(1));
    match front.read_to_end(&mut bytes) {
        Ok(_) => {
            if bytes.len() > most {
                return Err(ReadFault::TooLong);
            }
            Ok(bytes)
        }
        Err(error) => Err(fault_of(&error)),
    }
}

// The whole file of a name.
fn open_and_read<R: Files>(
    alloc: Global,
    files: &R,
    name: &str,
    most: usize,
) -> Result<Vec<u8>, ReadFault>
    ensures { IfOk result (λ bytes. length bytes.items ≤ most) }
{
    match fs::open(files, name) {
        Ok(file) => read_whole(alloc, file, most),
        Err(error) => Err(fault_of(&error)),
    }
}

impl<'a, R: Files> Store for DirStore<'a, R> {
    ghost held = { λ s name. None };

    ghost faults = { λ s. s.faults };

    ghost failed = { λ s. s.failed };

    fn read(&mut self, alloc: Global, name: &str, most: usize) -> Result<Vec<u8>, ReadFault> {
        let asked = Name::new(alloc, name)?;
        let answer = open_and_read(alloc, self.files, name, most);
        if let Err(ReadFault::Failed) = answer {
            self.count = self.count.saturating_add(1);
            self.failed = Some(Snapshot::of(&asked));
        }
        answer
    }
}
