//! Whether two class files are the same value.
#![tactic(auto)]

mod attribute;
mod constant;
mod file;
mod same;

pub use file::is_same_file;
