//! Slices of a vector that several values share, as contracts see them: a list of items.
#![tactic(auto)]

mod shared_slice;
mod shared_vec;

pub use shared_slice::SharedSlice;
pub use shared_vec::SharedVec;
