//! Why classes were not linked.

ghost use Rattle.std.specs.Prelude.{◌≡◌};

use items::{Items, NoMemory};
use link_rules::LinkWhy;
use thiserror::Error;

/// Why classes were not linked.
#[derive(Debug, Drop, Error)]
pub enum LinkError {
    /// What is wrong first with the program, and the name of the class where it is.
    #[error("a class does not link: {why}")]
    Fault { class: Items<u16>, why: LinkWhy },
    /// Memory ran out.
    #[error("out of memory")]
    NoMemory,
}

impl From<NoMemory> for LinkError {
    ghost use Rattle.class_world.specs.declared.error.LinkError.TheVariants as errors;

    ghost from_gives = { λ _ e. e ≡ errors.NoMemory };

    fn from(_: NoMemory) -> Self {
        LinkError::NoMemory
    }
}
