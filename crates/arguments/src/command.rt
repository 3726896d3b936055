//! What arguments spell.

ghost use Rattle.std.specs.Prelude.{◌≡◌};

use std::alloc::AllocError;
use thiserror::Error;

/// What the arguments spell.
#[derive(Drop)]
pub enum Command {
    /// A program is to be run.
    Run(Run),
    /// The class file of an assembler text is to be written: the command `asm FILE`.
    Asm { file: String },
    /// The assembler text of a class file is to be written: the command `list FILE`.
    List { file: String },
    /// The generated program is to be run.
    Gen(Gen),
    /// The help or the version is asked for. This is the text, for the standard output.
    Help(String),
}

/// The command `run [--carriers N] [--events N] [--trace] MAIN FILE..`.
#[derive(Drop)]
pub struct Run {
    /// On how many carriers the program is run, 1 to 64.
    pub carriers: u32,
    /// How many entries its history may have.
    pub events: u32,
    /// Whether the history is printed.
    pub trace: bool,
    /// The argument that names the main class.
    pub main: String,
    /// The arguments that name the files, one at least.
    pub files: Vec<String>,
}

/// The command `gen [--carriers N] COUNT`.
#[derive(Drop)]
pub struct Gen {
    /// On how many carriers the program is run, 1 to 64.
    pub carriers: u32,
    /// How many virtual threads it starts, 1 to 50,000.
    pub count: u32,
}

/// Why arguments give no command.
#[derive(Debug, Drop, Error)]
pub enum CommandError {
    /// They spell none. This is the text that says why.
    #[error("{0}")]
    Usage(String),
    /// Memory ran out.
    #[error("out of memory")]
    NoMemory,
}

impl From<AllocError> for CommandError {
    ghost use Rattle.arguments.specs.declared.command.CommandError.TheVariants as errors;

    ghost from_gives = { λ _ e. e ≡ errors.NoMemory };

    fn from(_: AllocError) -> Self {
        CommandError::NoMemory
    }
}
