//! The commands on one class file: assembles a text to a class file, and lists a class file as a text.
#![tactic(auto)]

mod answering;
mod assembling;
mod conversion;
mod laws;
mod listing;

pub use assembling::Assembly;
pub use conversion::{Conversion, convert_file};
pub use laws::one_is_due;
pub use listing::Listing;
