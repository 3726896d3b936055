//! The text of a class file: a line for each of its parts.
#![tactic(auto)]

mod class;
mod flags;
mod method;
mod rows;

pub use class::listing_of;
