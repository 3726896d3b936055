//! The checks on the references, names, descriptors and ranges of a class file (JVMS 4.1 to 4.9). Each text of its pool is
//! looked at once.
#![tactic(auto)]

mod class;
mod code;
mod constants;
mod file;
mod members;
mod name_units;
mod names;
mod pool;
mod sizes;
mod text_roles;
mod values;

pub use file::{check, check_counted};
