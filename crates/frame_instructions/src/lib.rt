//! Local instructions (JVMS 6.5) on the slots of a frame: its local variables first, and its operands after them. A call requires that the
//! row of its instruction is defined there, and leaves what that row does.
#![tactic(auto)]

mod branches;
mod constants;
mod ints;
mod longs;
mod moves;
mod slots;
mod variables;
mod words;

pub use branches::{if_int, if_ints, if_null, if_references, if_zero, lookup_switch, table_switch};
pub use constants::{push_null, push_value};
pub use ints::{int_binary, int_narrow, int_negate, int_with, long_compare, long_to_int, push_int};
pub use longs::{int_to_long, long_binary, long_negate, long_shift, long_shift_by, push_long};
pub use moves::{dup, dup_two, dup_two_x1, dup_two_x2, dup_x1, dup_x2, pop, pop_two, swap};
pub use variables::{
    increase, load_int, load_long, load_reference, store_int, store_long, store_reference,
};
