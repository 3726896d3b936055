//! Reads class files (JVMS 4).
#![tactic(auto)]

mod attributes;
mod bodies;
mod code;
mod constants;
mod error;
mod laws;
mod layout;
mod members;
mod names;
mod numbers;
mod plain;
mod reader;
mod texts;

pub use class_grammar::ClassWhy;
pub use error::ReadError;
pub use laws::{one_outcome, one_value};
pub use reader::{read, read_counted};
