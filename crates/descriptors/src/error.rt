//! Why a descriptor was not read.

ghost use Rattle.std.specs.Prelude.{◌≡◌};
ghost use Rattle.descriptors.specs.declared.error.DescriptorError.TheVariants.{NoMemory};

use std::alloc::{AllocError, AllocFailed};
use thiserror::Error;

/// Why a descriptor was not read.
#[derive(Clone, Copy, Debug, PartialEq, Eq, Error)]
pub enum DescriptorError {
    /// The units are no descriptor (JVMS 4.3). `at` is the offset of the first unit that is not
    /// allowed, in units, or their number where they end too early.
    #[error("no descriptor at {at}")]
    Bad { at: u32 },
    /// Memory ran out.
    #[error("out of memory")]
    NoMemory,
}

impl From<AllocError> for DescriptorError {
    ghost from_gives = { λ _ e. e ≡ NoMemory };

    fn from(_: AllocError) -> Self {
        DescriptorError::NoMemory
    }
}

impl<T: Drop> From<AllocFailed<T>> for DescriptorError {
    ghost from_gives = { λ _ e. e ≡ NoMemory };

    fn from(_: AllocFailed<T>) -> Self {
        DescriptorError::NoMemory
    }
}
