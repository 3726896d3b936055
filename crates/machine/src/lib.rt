//! The machine: a program of many threads on carriers, with the history that gives its state.
#![tactic(auto)]

mod after;
mod begin;
mod carriers;
mod endings;
mod entries;
mod kept;
mod laws;
mod live;
mod machine;
mod made;
mod moves;
mod pins;
mod puts;
mod stalls;

pub use after::After;
pub use machine::{Machine, Written};
pub use startup::ReadyProgram;
