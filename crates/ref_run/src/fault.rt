//! Why a replay ends before its list does.

use items::NoMemory;
use thiserror::Error;

/// Why an entry wasn't replayed.
#[derive(Clone, Copy, Debug, PartialEq, Eq, Error)]
pub(crate) enum Fault {
    /// The definitions have no step here.
    #[error("no step")]
    NoStep,
    /// Memory ran out, or a typed program has no such step.
    #[error("out of memory")]
    NoMemory,
}

impl From<NoMemory> for Fault {
    ghost use Rattle.std.specs.Prelude.{◌≡◌};
    ghost use Rattle.ref_run.specs.declared.fault.Fault.TheVariants as faults;

    ghost from_gives = { λ _ fault. fault ≡ faults.NoMemory };

    fn from(_: NoMemory) -> Self {
        Fault::NoMemory
    }
}
