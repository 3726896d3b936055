//! What instructions on fields, arrays and objects do (JVMS 6.5), over a heap, static fields and the operands of a mounted thread.
#![tactic(auto)]

mod array_making;
mod arrays;
mod dispatch;
mod divisions;
mod fields;
mod kinds;
mod makers;
mod monitors;
mod objects;
mod operands;
mod outcome;
mod reads;
mod world;

pub use arrays::{array_length, array_load, array_store, new_array, new_arrays};
pub use dispatch::{run_event, run_field, run_plain};
pub use divisions::{divide_ints, divide_longs};
pub use fields::{get_field, get_static, late_failure, put_field, put_static};
pub use kinds::{kept, value_kind};
pub use makers::{make_array, make_object, make_text};
pub use monitors::{enter_monitor, exit_monitor};
pub use objects::{check_cast, instance_of, new_object, throw_object};
pub use operands::{
    drop_operands, give, int_operand, long_operand, push_value, reference_operand, slots_of,
    value_operand, width,
};
pub use outcome::Outcome;
pub use reads::{ArrayView, array_at, class_number, set_value, value_in};
pub use world::EventWorld;
