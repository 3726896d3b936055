//! A thread's continuation: its number and its whole stack, mounted where a carrier runs it, and frozen where none does.
#![tactic(auto)]

mod mounted;

pub use mounted::{Frozen, Mounted};
