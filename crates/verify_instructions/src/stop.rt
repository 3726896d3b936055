//! Why an instruction was not typed.

ghost use Rattle.std.specs.Prelude.{◌≡◌};
ghost use Rattle.verify_instructions.specs.declared.stop.Stop.TheVariants.{NoMemory};

use instruction_rows::RowWhy;
use std::alloc::{AllocError, AllocFailed};

/// Why an instruction was not typed: it breaks a rule, or there was no memory.
#[derive(Clone, Copy, Debug)]
pub enum Stop {
    /// It breaks a rule.
    Broken(RowWhy),
    /// Memory ran out.
    NoMemory,
}

impl From<AllocError> for Stop {
    ghost from_gives = { λ _ e. e ≡ NoMemory };

    fn from(_: AllocError) -> Self {
        Stop::NoMemory
    }
}

impl<T: Drop> From<AllocFailed<T>> for Stop {
    ghost from_gives = { λ _ e. e ≡ NoMemory };

    fn from(_: AllocFailed<T>) -> Self {
        Stop::NoMemory
    }
}
