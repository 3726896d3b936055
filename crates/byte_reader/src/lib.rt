//! The kit of every reader of bytes: numbers with their highest byte first, runs of bytes, and a fault by how many bytes
//! were left where it lies.
#![tactic(auto)]

mod fault;
mod numbers;

pub use fault::{Fault, Reason, Stop};
pub use numbers::{bytes_of, i1_of, i2_of, i4_of, pair_of, u1_of, u2_of, u4_of, u8_of};
