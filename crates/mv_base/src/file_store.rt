//! The files of the system as a store: the trusted edge.

ghost use Rattle.std.specs.Prelude.{◌≡◌, List, None, [], false, string_bytes};
ghost use Rattle.mv_base.specs.Holding.{KeepsLimit};

use crate::pieces::read_pieces;
use crate::replace::write_file;
use crate::store::{Got, Store, StoreFault};
use std::alloc::Global;
use std::fs::File;
use std::io::ErrorKind;
use std::rt::Files;

/// The files of the system. A name is a path. Nobody can say what a file holds, so this store tells nothing of it; its
/// counts and the name that failed are exact.
#[derive(Drop)]
pub struct FileStore<'a, R: Files> {
    files: &'a R,
    alloc: Global,
    read_faults: u64,
    write_faults: u64,
    failed: String,
}

impl<'a, R: Files> FileStore<'a, R> {
    /// The files that `files` reaches. No call has failed yet.
    pub fn new(alloc: Global, files: &'a R) -> FileStore<'a, R>
        ensures read_faults { ⟦<FileStore<'a, R> as Store>⟧.read_faults result ≡ 0 }
        ensures write_faults { ⟦<FileStore<'a, R> as Store>⟧.write_faults result ≡ 0 }
        ensures failed { ⟦<FileStore<'a, R> as Store>⟧.failed result ≡ [] }
    {
        FileStore {
            files,
            alloc,
            read_faults: 0,
            write_faults: 0,
            failed: String::new(alloc),
        }
    }
}

impl<'a, R: Files> Store for FileStore<'a, R> {
    ghost tells = { λ _. false };

    ghost holds = { λ _ _. None };

    ghost read_faults = { λ s. s.read_faults };

    ghost write_faults = { λ s. s.write_faults };

    ghost failed = { λ s. string_bytes s.failed };

    fn get(&mut self, name: &str, limit: usize, to: &mut Vec<u8>) -> Result<Got, StoreFault> {
        let kept_name = String::from_str(self.alloc, name)?;
        match read_file(self.files, name, limit, to) {
            Ok(got) => Ok(got),
            Err(StoreFault::Failed) => {
                self.failed = kept_name;
                self.read_faults = self.read_faults.saturating_add(1);
                Err(StoreFault::Failed)
            }
            Err(StoreFault::NoMemory) => Err(StoreFault::NoMemory),
        }
    }

    fn put(&mut self, name: &str, bytes: &[u8]) -> Result<(), StoreFault> {
        let kept_name = String::from_str(self.alloc, name)?;
        match write_file(self.files, self.alloc, name, bytes) {
            Ok(()) => Ok(()),
            Err(error) if error.kind() == ErrorKind::OutOfMemory => Err(StoreFault::NoMemory),
            Err(_) => {
                self.failed = kept_name;
                self.write_faults = self.write_faults.saturating_add(1);
                Err(StoreFault::Failed)
            }
        }
    }
}

/// Reads the file at `path`, at most `limit` bytes, to the end of the empty `to`.
fn read_file<R: Files>(
    files: &R,
    path: &str,
    limit: usize,
    to: &mut Vec<u8>,
) -> Result<Got, StoreFault>
    requires { to.old.items ≡ [] }
    ensures { KeepsLimit result limit to.new.items }
{
    let mut file = File::open(files, path)?;
    read_pieces(&mut file, limit, to)
}
