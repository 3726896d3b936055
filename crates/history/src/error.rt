//! What is wrong with the text of a history.

ghost use Rattle.std.specs.Prelude.{◌≡◌};
ghost use Rattle.history.specs.declared.error.TraceError.TheVariants as errors;

use std::alloc::{AllocError, AllocFailed};
use thiserror::Error;

/// Why a text gave no history.
#[derive(Clone, Copy, Debug, PartialEq, Eq, Error)]
pub enum TraceError {
    /// The text is no trace. `line` is the first line that can't be where it is, counted from 1.
    #[error("bad trace at line {line}")]
    Bad { line: u32 },
    /// Memory ran out.
    #[error("out of memory")]
    NoMemory,
}

impl From<AllocError> for TraceError {
    ghost from_gives = { λ _ e. e ≡ errors.NoMemory };

    fn from(_: AllocError) -> Self {
        TraceError::NoMemory
    }
}

impl<T: Drop> From<AllocFailed<T>> for TraceError {
    ghost from_gives = { λ _ e. e ≡ errors.NoMemory };

    fn from(_: AllocFailed<T>) -> Self {
        TraceError::NoMemory
    }
}
