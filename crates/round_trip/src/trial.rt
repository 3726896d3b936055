//! The outcome of one file.

ghost use Rattle.std.specs.Prelude.{◌≡◌, ◌≤◌, ◌^◌, length, IfSome};
ghost use Rattle.jvm_edges.specs.Files.{file_named};
ghost use Rattle.round_trip.specs.Outcomes.{ComesTo, FileComesTo, StoreFaults};

use crate::copy::copy_of;
use crate::outcome::Outcome;
use class_file::ReadError;
use jvm_edges::{Store, StoreError};
use std::alloc::Global;

/// The fewest bytes that are too many for a class file here.
const TOO_LONG: usize = 1 << 32;

/// Reads a file as a class file, and writes it again.
pub fn outcome_of_file<S: Store>(alloc: Global, store: &mut S, name: &str) -> Outcome
    ensures known { IfSome (S.files store.old) (λ files.
        FileComesTo (file_named name.now files) result) }
    ensures kept { S.files store.new ≡ S.files store.old }
    // The store's count of faults rose exactly where the file could not be read.
    ensures faults { StoreFaults result (S.faults store.old) (S.faults store.new) }
{
    match store.read(alloc, name, TOO_LONG) {
        Ok(Some(bytes)) => outcome_of(alloc, &bytes),
        Ok(None) => Outcome::Missing,
        Err(StoreError::Failed) => Outcome::Unreadable,
        Err(StoreError::NoMemory) => Outcome::NoMemory,
    }
}

// Reads bytes as a class file, and writes it again.
fn outcome_of(alloc: Global, bytes: &[u8]) -> Outcome
    ensures comes { ComesTo bytes.now result }
    ensures long { 2 ^ 32 ≤ length bytes.now → result ≡ Outcome.TooLong }
{
    if bytes.len() >= TOO_LONG {
        return Outcome::TooLong;
    }
    match copy_of(alloc, bytes) {
        Ok(copy) if copy.as_slice() == bytes => Outcome::Same,
        Ok(_) => Outcome::Differs,
        Err(ReadError::Bad { at, why }) => Outcome::Bad { at, why },
        Err(ReadError::NoMemory) => Outcome::NoMemory,
    }
}
