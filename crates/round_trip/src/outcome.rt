use class_file::ClassWhy;
use std::fmt;

/// What came of a file.
#[derive(Clone, Copy, Debug, PartialEq, Eq)]
pub enum Outcome {
    /// It was read as a class file, and written byte for byte as it was.
    Same,
    /// It was read as a class file, and other bytes were written.
    Differs,
    /// It is no class file. `at` is the byte of the first check that fails.
    Bad { at: u32, why: ClassWhy },
    /// It has 4 GiB or more.
    TooLong,
    /// There is no such file.
    Missing,
    /// The file could not be read.
    Unreadable,
    /// Memory ran out.
    NoMemory,
}

impl fmt::Display for Outcome {
    fn fmt<W: fmt::Write>(&self, f: &mut fmt::Formatter<W>) -> fmt::Result {
        match self {
            Outcome::Same => write!(f, "same"),
            Outcome::Differs => write!(f, "differs"),
            Outcome::Bad { at, why } => write!(f, "bad class at {at}: {why:?}"),
            Outcome::TooLong => write!(f, "too long"),
            Outcome::Missing => write!(f, "missing"),
            Outcome::Unreadable => write!(f, "cannot be read"),
            Outcome::NoMemory => write!(f, "no memory"),
        }
    }
}
