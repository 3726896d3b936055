//! What a program is: when a list of classes links, and what its names mean (JVMS 5.3, 5.4). The definitions are in `specs/`.
#![tactic(auto)]

mod choice;
mod fault;
mod laws;
mod place;
mod primitive;
mod reference;
mod why;

pub use choice::Choice;
pub use fault::LinkFault;
pub use laws::first_faults;
pub use place::MemberPlace;
pub use primitive::is_floating_primitive;
pub use reference::{Invocation, Purpose};
pub use why::LinkWhy;
