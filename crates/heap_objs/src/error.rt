//! Why an object is not made.

ghost use Rattle.std.specs.Prelude.{◌≡◌};
ghost use Rattle.heap_objs.specs.declared.error.HeapError.TheVariants as errors;

use items::NoMemory;
use std::alloc::AllocError;
use thiserror::Error;

/// Why an object wasn't made.
#[derive(Clone, Copy, Debug, PartialEq, Eq, Error)]
pub enum HeapError {
    /// It needs more cells than are left (`OutOfMemoryError`).
    #[error("the heap is full")]
    Full,
    /// Memory ran out.
    #[error("out of memory")]
    NoMemory,
}

impl From<NoMemory> for HeapError {
    ghost from_gives = { λ _ e. e ≡ errors.NoMemory };

    fn from(_: NoMemory) -> Self {
        HeapError::NoMemory
    }
}

impl From<AllocError> for HeapError {
    ghost from_gives = { λ _ e. e ≡ errors.NoMemory };

    fn from(_: AllocError) -> Self {
        HeapError::NoMemory
    }
}
