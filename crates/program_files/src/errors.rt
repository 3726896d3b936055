//! The errors of linking and typing, and of the start, and the answers to them.

ghost use Rattle.std.specs.Prelude.{◌≡◌};

use class_world::LinkError;
use command_line::Why;
use items::{Items, NoMemory};
use link_rules::LinkWhy;
use std::alloc::AllocError;
use verify_types::VerifyWhy;

/// Why class files are not accepted as a program.
#[derive(Debug, Drop)]
pub enum AcceptError {
    /// What is wrong first with linking them, and the name of the class where it is (JVMS 5.3, 5.4).
    LinkFault {
        class: Items<u16>,
        why: LinkWhy,
    },
    /// The first instruction or stack map frame that breaks a rule of typing (JVMS 4.10.1): the name of its class, the name and descriptor
    /// of its method, its pc and the rule.
    VerifyFault {
        class: Items<u16>,
        method: Items<u16>,
        pc: u32,
        why: VerifyWhy,
    },
    /// Memory ran out.
    NoMemory,
}

/// Why classes that are accepted as a program are not run.
#[derive(Debug, Drop)]
pub enum StartError {
    /// No class is the main class with a `main` (JLS 12.1.4).
    NoMain,
    /// Memory ran out.
    NoMemory,
}

impl From<AllocError> for StartError {
    ghost use Rattle.program_files.specs.declared.errors.StartError.TheVariants as errors;

    ghost from_gives = { λ _ e. e ≡ errors.NoMemory };

    fn from(_: AllocError) -> Self {
        StartError::NoMemory
    }
}

impl From<AllocError> for AcceptError {
    ghost use Rattle.program_files.specs.declared.errors.AcceptError.TheVariants as errors;

    ghost from_gives = { λ _ e. e ≡ errors.NoMemory };

    fn from(_: AllocError) -> Self {
        AcceptError::NoMemory
    }
}

impl From<NoMemory> for AcceptError {
    ghost use Rattle.program_files.specs.declared.errors.AcceptError.TheVariants as errors;

    ghost from_gives = { λ _ e. e ≡ errors.NoMemory };

    fn from(_: NoMemory) -> Self {
        AcceptError::NoMemory
    }
}

impl From<LinkError> for AcceptError {
    ghost use Rattle.program_files.specs.Errors.{unlinked};

    ghost from_gives = { λ error e. e ≡ unlinked error };

    fn from(error: LinkError) -> Self {
        match error {
            LinkError::Fault { class, why } => AcceptError::LinkFault { class, why },
            LinkError::NoMemory => AcceptError::NoMemory,
        }
    }
}

impl From<AcceptError> for Why {
    ghost use Rattle.program_files.specs.Errors.{accept_answer};

    ghost from_gives = { λ error why. why ≡ accept_answer error };

    fn from(error: AcceptError) -> Self {
        match error {
            AcceptError::LinkFault { class, why } => Why::LinkFault { class, why },
            AcceptError::VerifyFault {
                class,
                method,
                pc,
                why,
            } => Why::VerifyFault {
                class,
                method,
                pc,
                why,
            },
            AcceptError::NoMemory => Why::NoMemory,
        }
    }
}

impl From<StartError> for Why {
    ghost use Rattle.program_files.specs.Errors.{start_answer};

    ghost from_gives = { λ error why. why ≡ start_answer error };

    fn from(error: StartError) -> Self {
        match error {
            StartError::NoMain => Why::NoMain,
            StartError::NoMemory => Why::NoMemory,
        }
    }
}
