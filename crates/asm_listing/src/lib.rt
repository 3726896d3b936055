//! The lines of a code and of its stack map.
#![tactic(auto)]

mod code;
mod form;
mod frames;
mod numbers;
mod operand_reader;
mod switch_reader;
mod words;

pub use code::{Found, PlacedLine, code_lines};
pub use frames::map_lines;
pub use words::{caught_at, class_at, label_of, word_at};
