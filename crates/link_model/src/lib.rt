//! The linked world as plain values: the classes of a program with their numbers, and what the names in their code mean (JVMS 5.4).
//! `specs/` says which world a program has.
#![tactic(auto)]

mod first_objects;
mod initializers;
mod lookups;
mod members;
mod resolutions;
mod sites;
mod subtypes;

pub use first_objects::{
    ERR_STREAM, FIRST_STATE, FIRST_STATE_NAME, MAIN_NAME, OBJECTS_BEFORE_STRINGS, OUT_OF_MEMORY,
    OUT_STREAM,
};
pub use initializers::{is_initializer, is_synchronized};
pub use lookups::Lookups;
pub use members::{FieldInfo, MethodCode, MethodInfo};
pub use resolutions::Resolutions;
pub use sites::{ArrayType, Resolution, SelectionFailure, Site};
pub use subtypes::{class_below, is_array_super, same_primitive};
