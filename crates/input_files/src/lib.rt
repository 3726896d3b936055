//! Reads the files of a command, class files or others.
#![tactic(auto)]

mod error;
mod files;

pub use error::LoadError;
pub use files::{class_of, read_class, read_file};
