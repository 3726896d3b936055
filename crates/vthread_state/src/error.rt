//! Why a thread isn't added or started.

ghost use Rattle.std.specs.Prelude.{◌≡◌};
ghost use Rattle.vthread_state.specs.declared.error.ThreadError.TheVariants as errors;

use items::NoMemory;
use std::alloc::{AllocError, AllocFailed};
use thiserror::Error;

/// Why a thread wasn't added.
#[derive(Clone, Copy, Debug, PartialEq, Eq, Error)]
pub enum ThreadError {
    /// There are as many threads as the table may have.
    #[error("too many threads")]
    Full,
    /// Memory ran out.
    #[error("out of memory")]
    NoMemory,
}

impl From<AllocError> for ThreadError {
    ghost from_gives = { λ _ e. e ≡ errors.NoMemory };

    fn from(_: AllocError) -> Self {
        ThreadError::NoMemory
    }
}

impl<T: Drop> From<AllocFailed<T>> for ThreadError {
    ghost from_gives = { λ _ e. e ≡ errors.NoMemory };

    fn from(_: AllocFailed<T>) -> Self {
        ThreadError::NoMemory
    }
}

impl From<NoMemory> for ThreadError {
    ghost from_gives = { λ _ e. e ≡ errors.NoMemory };

    fn from(_: NoMemory) -> Self {
        ThreadError::NoMemory
    }
}

/// The thread was started before (`IllegalThreadStateException`).
#[derive(Clone, Copy, Debug, PartialEq, Eq, Error)]
#[error("the thread isn't new")]
pub struct NotNew;
