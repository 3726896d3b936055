//! Why a frame is not pushed.

ghost use Rattle.std.specs.Prelude.{◌≡◌};
ghost use Rattle.frames.specs.declared.error.StackError.TheVariants as errors;

use items::NoMemory;
use std::alloc::AllocError;
use thiserror::Error;

/// Why a frame wasn't pushed.
#[derive(Clone, Copy, Debug, PartialEq, Eq, Error)]
pub enum StackError {
    /// The stack has 2,048 frames (`StackOverflowError`).
    #[error("too many frames")]
    Deep,
    /// Memory ran out.
    #[error("out of memory")]
    NoMemory,
}

impl From<AllocError> for StackError {
    ghost from_gives = { λ _ e. e ≡ errors.NoMemory };

    fn from(_: AllocError) -> Self {
        StackError::NoMemory
    }
}

impl From<NoMemory> for StackError {
    ghost from_gives = { λ _ e. e ≡ errors.NoMemory };

    fn from(_: NoMemory) -> Self {
        StackError::NoMemory
    }
}
