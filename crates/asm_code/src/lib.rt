//! The code of a method that is assembled: the places of labels, and the bytes of each instruction.
#![tactic(auto)]

mod instruction;
mod labels;
mod laws;
mod offset;
mod size;
mod switch;

pub use instruction::{Mentioned, put_instruction};
pub use labels::Labels;
pub use laws::sizes_hold;
pub use size::size_of;
