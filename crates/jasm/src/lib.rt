//! Class files as assembler text, and back.
#![tactic(auto)]

mod assembler;
mod error;
mod laws;
mod lister;

pub use assembler::assemble;
pub use error::{ListError, TextError};
pub use laws::one_answer;
pub use lister::list;
