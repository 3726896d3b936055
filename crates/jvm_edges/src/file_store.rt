//! A store of files on disk.

ghost use Rattle.std.specs.Prelude.{◌≡◌, ◌≢◌, ◌≤◌, ℕ, None, IfOk, IfErr, vec_len};
ghost use Rattle.std.specs.IoError.{error_kind};
ghost use Rattle.jvm_edges.specs.Causes.{StoreHasCause};

use crate::store::{Store, StoreError};
use std::alloc::Global;
use std::fs::File;
use std::io;
use std::io::{ErrorKind, Read};
use std::marker::Model;
use std::rt::Files;

/// The files of the system, by their paths. No clause says what they hold. Clauses see the store as its count of
/// faults.
#[derive(Drop)]
pub struct FileStore<'a, R: Files> {
    rt: &'a R,
    faults: u64,
}

impl<'a, R: Files> Model for FileStore<'a, R> {
    ghost Value = { ℕ };

    ghost view = { λ store. store.faults };
}

// The first bytes of a file, at most `most` of them. It reads no more than that.
fn read_front<R: Files>(rt: &R, alloc: Global, path: &str, most: usize) -> io::Result<Vec<u8>>
    ensures { IfOk result (λ bytes. vec_len bytes ≤ most) }
{
    let mut bytes = Vec::new(alloc);
    File::open(rt, path)?
        .take(most as u64)
        .read_to_end(&mut bytes)?;
    // `take` lets no more through, and no clause of std says so.
    bytes.truncate(most);
    Ok(bytes)
}

impl<'a, R: Files> FileStore<'a, R> {
    /// The files that the runtime reaches.
    pub fn new(rt: &'a R) -> Self
        ensures { result ≡ 0 }
    {
        FileStore { rt, faults: 0 }
    }

    /// How often a file could not be read, at most the greatest u64.
    pub fn faults(&self) -> u64
        ensures { result ≡ self.now }
    {
        self.faults
    }

    // The answer to a reading. There is no such file where the system says that it is not found. Each other error
    // is a fault, but for want of memory.
    fn answer(&mut self, read: io::Result<Vec<u8>>) -> Result<Option<Vec<u8>>, StoreError>
        ensures found { IfOk read (λ bytes. result ≡ Ok (Some bytes)) }
        ensures missing { IfErr read (λ error.
            error_kind error ≡ ErrorKind.NotFound → result ≡ Ok None) }
        ensures memory { IfErr read (λ error.
            error_kind error ≡ ErrorKind.OutOfMemory → result ≡ Err StoreError.NoMemory) }
        ensures failed { IfErr read (λ error.
            error_kind error ≢ ErrorKind.NotFound → error_kind error ≢ ErrorKind.OutOfMemory
            → result ≡ Err StoreError.Failed) }
        ensures cause { StoreHasCause self.old self.new result }
    {
        match read {
            Ok(bytes) => Ok(Some(bytes)),
            Err(error) => match error.kind() {
                ErrorKind::NotFound => Ok(None),
                ErrorKind::OutOfMemory => Err(StoreError::NoMemory),
                _ => {
                    self.faults = self.faults.saturating_add(1);
                    Err(StoreError::Failed)
                }
            },
        }
    }
}

impl<'a, R: Files> Store for FileStore<'a, R> {
    ghost files = { λ _. None };

    ghost faults = { λ faults. faults };

    fn read(
        &mut self,
        alloc: Global,
        name: &str,
        most: usize,
    ) -> Result<Option<Vec<u8>>, StoreError> {
        let read = read_front(self.rt, alloc, name, most);
        self.answer(read)
    }
}
