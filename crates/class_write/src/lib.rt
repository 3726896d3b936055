//! Writes class files (JVMS 4).
#![tactic(auto)]

mod attributes;
mod constants;
mod members;
mod numbers;
mod text;
mod writer;

pub use items::NoMemory;
pub use writer::write;
