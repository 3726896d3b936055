//! The program that a command's files are: reads the class files, links them with the built-in classes, types their code, and finds main.
#![tactic(auto)]

mod class_files;
mod errors;
mod fault_names;
mod main_class;
mod program;

pub use class_files::read_files;
pub use errors::{AcceptError, StartError};
pub use input_files::LoadError;
pub use program::{accept_files, start};
