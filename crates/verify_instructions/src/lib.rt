//! Verifies the code of a linked program (JVMS 4.10.1).
#![tactic(auto)]

mod calls;
mod effect;
mod local_rows;
mod locals;
mod method;
mod objects;
mod operand_stack;
mod operands;
mod rules;
mod stack_items;
mod state;
mod stop;
mod types;

pub use calls::is_constructor;
pub use method::Method;
pub use rules::goes_on;
pub use state::{State, Uninitialized};
pub use stop::Stop;
pub use types::Types;
