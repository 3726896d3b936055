//! Lists of verification types that share what they have in common, as those of the frames of a stack map (JVMS 4.7.4).
#![tactic(auto)]

mod paths;
mod slots;

pub use paths::{Node, Paths};
