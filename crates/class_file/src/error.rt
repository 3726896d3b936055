//! Why a class file is not read.

ghost use Rattle.std.specs.Prelude.{◌≡◌};
ghost use Rattle.class_file.specs.declared.error.ReadError.TheVariants as errors;

use class_grammar::ClassWhy;
use std::alloc::{AllocError, AllocFailed};
use thiserror::Error;

/// Why a class file was not read.
#[derive(Clone, Copy, Debug, PartialEq, Eq, Error)]
pub enum ReadError {
    /// The bytes aren't a class file that is taken. `at` is the byte of the first check that fails.
    #[error("bad class file at {at}: {why}")]
    Bad { at: u32, why: ClassWhy },
    /// Memory ran out.
    #[error("out of memory")]
    NoMemory,
}

impl From<AllocError> for ReadError {
    ghost from_gives = { λ _ e. e ≡ errors.NoMemory };

    fn from(_: AllocError) -> Self {
        ReadError::NoMemory
    }
}

impl<T: Drop> From<AllocFailed<T>> for ReadError {
    ghost from_gives = { λ _ e. e ≡ errors.NoMemory };

    fn from(_: AllocFailed<T>) -> Self {
        ReadError::NoMemory
    }
}
