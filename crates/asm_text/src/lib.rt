//! The lines of assembler text: what a line says, read from its bytes and printed.
#![tactic(auto)]

mod error;
mod instruction;
mod keyword;
mod laws;
mod line;
mod line_reader;
mod lists;
mod mnemonic;
mod number;
mod operand_reader;
mod printer;
mod reader;
mod word;
mod word_reader;

pub use error::LineError;
pub use instruction::{Case, Constant, Element, Operands};
pub use laws::{one_line, printed_line};
pub use line::{Flag, FrameType, Line, Name};
pub use printer::print_line;
pub use reader::read_line;
