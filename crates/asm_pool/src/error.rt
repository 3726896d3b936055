//! Why a constant has no place in the pool.

ghost use Rattle.std.specs.Prelude.{◌≡◌};
ghost use Rattle.asm_pool.specs.declared.error.PoolError.TheVariants as errors;

use std::alloc::{AllocError, AllocFailed};
use thiserror::Error;

/// Why a constant has no place in the pool.
#[derive(Clone, Copy, Debug, PartialEq, Eq, Error)]
pub enum PoolError {
    /// The pool would have more than 65,535 entries, with the one at index 0, or a text more than 65,535 bytes.
    #[error("the pool is full")]
    Full,
    /// Memory ran out.
    #[error("out of memory")]
    NoMemory,
}

impl From<AllocError> for PoolError {
    ghost from_gives = { λ _ e. e ≡ errors.NoMemory };

    fn from(_: AllocError) -> Self {
        PoolError::NoMemory
    }
}

impl<T: Drop> From<AllocFailed<T>> for PoolError {
    ghost from_gives = { λ _ e. e ≡ errors.NoMemory };

    fn from(_: AllocFailed<T>) -> Self {
        PoolError::NoMemory
    }
}
