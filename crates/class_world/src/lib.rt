//! The linked world: the classes of a program that links, and what their names mean (JVMS 5.3, 5.4).
#![tactic(auto)]

mod error;
mod lookups;
mod numbers;
mod subtypes;
mod world;

pub use error::LinkError;
pub use world::{World, link};
