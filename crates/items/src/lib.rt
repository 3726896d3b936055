//! Values in memory of their own, as contracts see them: a vector is the list of its items, and a box is the value in it.
#![tactic(auto)]

mod boxed;
mod items;
mod no_memory;

pub use boxed::Boxed;
pub use items::Items;
pub use no_memory::NoMemory;
