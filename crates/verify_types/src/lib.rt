//! When the code of a program is well typed (JVMS 4.10.1), as this project's profile of it, and the first place where it
//! isn't. `specs/` has the definitions; here are the plain types that they speak of, and the laws.
#![tactic(auto)]

mod assignability;
mod class_types;
mod fault;
mod laws;
mod why;

pub use assignability::assignable;
pub use class_types::{
    base_of_primitive, object_type, resolve, string_type, throwable_type, type_of_kind,
    type_of_value,
};
pub use fault::{PcFault, VerifyFault};
pub use laws::{first_faults, kinds_are_kept, typed_methods};
pub use why::VerifyWhy;
