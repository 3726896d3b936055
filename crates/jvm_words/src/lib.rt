//! The arithmetic of int and long (JVMS 2.11.3, 6.5).
#![tactic(auto)]

mod operation;
mod words;

pub use operation::{IntOp, LongOp, Narrow, ShiftOp};
pub use words::{i_binary, l_binary, l_compare, l_shift, narrow};
