//! The heap (JVMS 2.5.3): objects, arrays and Strings by number, up to a number of cells. Nothing is ever taken off it.
#![tactic(auto)]

mod error;
mod heap;
mod table;

pub use error::HeapError;
pub use heap::Heap;
