//! The program of a given number of threads that take turns, as class files.
#![tactic(auto)]

mod classes;
mod laws;
mod texts;

pub use classes::program;
pub use laws::lines_fit;
