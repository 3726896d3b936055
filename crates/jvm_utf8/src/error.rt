//! Why bytes are not decoded.

ghost use Rattle.std.specs.Prelude.{◌≡◌};
ghost use Rattle.jvm_utf8.specs.declared.error.Utf8Error.TheVariants as errors;

use std::alloc::{AllocError, AllocFailed};
use thiserror::Error;

/// Why `decode` gave no units.
#[derive(Clone, Copy, Debug, PartialEq, Eq, Error)]
pub enum Utf8Error {
    /// The bytes are no text (JVMS 4.4.7). `at` is the offset of the first byte at which no unit
    /// begins, in bytes.
    #[error("no modified UTF-8 at {at}")]
    Bad { at: u32 },
    /// Memory ran out.
    #[error("out of memory")]
    NoMemory,
}

impl From<AllocError> for Utf8Error {
    ghost from_gives = { λ _ e. e ≡ errors.NoMemory };

    fn from(_: AllocError) -> Self {
        Utf8Error::NoMemory
    }
}

impl<T: Drop> From<AllocFailed<T>> for Utf8Error {
    ghost from_gives = { λ _ e. e ≡ errors.NoMemory };

    fn from(_: AllocFailed<T>) -> Self {
        Utf8Error::NoMemory
    }
}
