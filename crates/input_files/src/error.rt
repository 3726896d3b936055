//! Why a file was not read, and the answer to it.

ghost use Rattle.std.specs.Prelude.{◌≡◌};

use crate::files::MOST_BYTES;
use class_grammar::ClassWhy;
use command_line::{Which, Why};
use std::alloc::AllocFailed;

/// Why a file was not read as a class file. `file` is its index among the files of the command, from 0.
#[derive(Debug, Drop)]
pub enum LoadError {
    /// There is no such file.
    Missing { file: u32 },
    /// The store failed.
    SourceFault { file: u32 },
    /// The file has more bytes than are read.
    TooLarge,
    /// The file is no class file. `at` is the offset in it of the first check that fails, in bytes.
    BadClass { file: u32, at: u32, why: ClassWhy },
    /// Memory ran out.
    NoMemory,
}

impl<T: Drop> From<AllocFailed<T>> for LoadError {
    ghost use Rattle.input_files.specs.declared.error.LoadError.TheVariants as errors;

    ghost from_gives = { λ _ e. e ≡ errors.NoMemory };

    fn from(_: AllocFailed<T>) -> Self {
        LoadError::NoMemory
    }
}

impl From<LoadError> for Why {
    ghost use Rattle.input_files.specs.Errors.{load_answer};

    ghost from_gives = { λ error why. why ≡ load_answer error };

    fn from(error: LoadError) -> Self {
        match error {
            LoadError::Missing { file } => Why::Missing { file },
            LoadError::SourceFault { file } => Why::SourceFault { file },
            LoadError::TooLarge => Why::Limit {
                which: Which::FileSize,
                number: MOST_BYTES,
            },
            LoadError::BadClass { file, at, why } => Why::BadClass { file, at, why },
            LoadError::NoMemory => Why::NoMemory,
        }
    }
}
