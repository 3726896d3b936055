//! The run deques of the carriers: which threads are ready to be mounted, in the order in which they are to be.
#![tactic(auto)]

mod deques;

pub use deques::Deques;
