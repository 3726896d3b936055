//! What is wrong with a program first (JVMS 5.3, 5.4): the rules of `link_rules`, tried in their order.
#![tactic(auto)]

mod class_name;
mod class_rules;
mod code;
mod constant_uses;
mod instructions;
mod program;
mod rules;

pub use code::{Front, front_of};
pub use instructions::{resolved_field, resolved_method};
pub use program::link_fault;
