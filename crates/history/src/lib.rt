//! Histories: entries, which of them the Java program can tell, and their text.
#![tactic(auto)]

mod entry;
mod error;
mod java_part;
mod kept;
mod kept_box;
mod laws;
mod line_parser;
mod printer;
mod reader;

pub use entry::{Entry, What};
pub use error::TraceError;
pub use java_part::java;
pub use kept::Kept;
pub use laws::{java_joins, one_history};
pub use printer::print;
pub use reader::read;
