//! Why a text is not assembled, or a class file not listed.

ghost use Rattle.std.specs.Prelude.{◌≡◌};
ghost use Rattle.jasm.specs.declared.error.TextError.TheVariants as errors;

use std::alloc::{AllocError, AllocFailed};
use thiserror::Error;

/// Why a text is not assembled.
#[derive(Clone, Copy, Debug, PartialEq, Eq, Error)]
pub enum TextError {
    /// The first line that doesn't fit, counted from 1.
    #[error("bad text at line {line}")]
    Bad { line: u32 },
    /// Memory ran out.
    #[error("out of memory")]
    NoMemory,
}

/// Why a class file is not listed.
#[derive(Clone, Copy, Debug, PartialEq, Eq, Error)]
pub enum ListError {
    /// It has no listing, or another class file is assembled from its listing.
    #[error("no text is assembled to the class file")]
    Unlisted,
    /// Memory ran out.
    #[error("out of memory")]
    NoMemory,
}

impl From<AllocError> for TextError {
    ghost from_gives = { λ _ e. e ≡ errors.NoMemory };

    fn from(_: AllocError) -> Self {
        TextError::NoMemory
    }
}

impl<T: Drop> From<AllocFailed<T>> for TextError {
    ghost from_gives = { λ _ e. e ≡ errors.NoMemory };

    fn from(_: AllocFailed<T>) -> Self {
        TextError::NoMemory
    }
}
