//! Why lines make no body.

ghost use Rattle.std.specs.Prelude.{◌≡◌};
ghost use Rattle.asm_body.specs.declared.error.BodyError.TheVariants as errors;

use std::alloc::{AllocError, AllocFailed};
use thiserror::Error;

/// Why lines make no body of a method.
#[derive(Clone, Copy, Debug, PartialEq, Eq, Error)]
pub enum BodyError {
    /// What this line says doesn't fit the others.
    #[error("bad line {line}")]
    Bad { line: u32 },
    /// Memory ran out.
    #[error("out of memory")]
    NoMemory,
}

impl From<AllocError> for BodyError {
    ghost from_gives = { λ _ e. e ≡ errors.NoMemory };

    fn from(_: AllocError) -> Self {
        BodyError::NoMemory
    }
}

impl<T: Drop> From<AllocFailed<T>> for BodyError {
    ghost from_gives = { λ _ e. e ≡ errors.NoMemory };

    fn from(_: AllocFailed<T>) -> Self {
        BodyError::NoMemory
    }
}
