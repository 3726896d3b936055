//! A program that is ready to run: a checked world with tables for what the machine asks of it at each step, so that each answer takes
//! constant time. The answers are the definitions of `link_model` and `ref_model`.
#![tactic(auto)]

mod array_classes;
mod calls;
mod class_names;
mod class_numbers;
mod exception_classes;
mod field_values;
mod handlers;
mod instance_places;
mod instructions;
mod lookups;
mod methods;
mod program;
mod static_places;
mod subtypes;
mod tables;
mod thread_run;

pub use class_numbers::named;
pub use field_values::zero_of;
pub use program::ReadyProgram;
