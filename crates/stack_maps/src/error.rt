//! Why a stack map is refused.

ghost use Rattle.std.specs.Prelude.{◌≡◌};
ghost use Rattle.stack_maps.specs.declared.error.MapWhy.TheVariants as whys;

use byte_reader::Reason;
use std::alloc::AllocError;
use thiserror::Error;

/// What is wrong with a map (JVMS 4.7.4).
#[derive(Clone, Copy, Debug, PartialEq, Eq, Error)]
pub enum MapWhy {
    /// The bytes end before a field does.
    #[error("a field passes the end")]
    Short,
    /// A frame's type is reserved, from 128 to 246.
    #[error("a reserved frame type")]
    Reserved,
    /// A type's tag is past 8.
    #[error("an unknown type")]
    Tag,
    /// A frame drops more locals than there are.
    #[error("more locals dropped than there are")]
    Chop,
    /// There are bytes after the last frame.
    #[error("bytes after the last frame")]
    Trailing,
}

/// Why a map was not expanded.
#[derive(Clone, Copy, Debug, PartialEq, Eq, Error)]
pub enum MapError {
    /// The bytes are no map. `at` is the offset, in bytes, of the field that is short, the
    /// frame's type, the type's tag, or the first byte too many.
    #[error("bad stack map at {at}: {why}")]
    Bad { at: u32, why: MapWhy },
    /// Memory ran out.
    #[error("out of memory")]
    NoMemory,
}

impl From<AllocError> for MapError {
    ghost use Rattle.stack_maps.specs.declared.error.MapError.TheVariants as errors;

    ghost from_gives = { λ _ e. e ≡ errors.NoMemory };

    fn from(_: AllocError) -> Self {
        MapError::NoMemory
    }
}

impl Reason for MapWhy {
    ghost short = { whys.Short };

    fn short() -> Self {
        MapWhy::Short
    }
}
