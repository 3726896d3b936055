//! What names mean in a program (JVMS 5.3, 5.4): its classes by name, what is above each of them, their fields and methods,
//! resolution and selection. Nothing is asked of the program: it may lack classes, and a class may be above itself.
#![tactic(auto)]

mod class_set;
mod classes;
mod constants;
mod hierarchy;
mod member_index;
mod members;
mod resolution;
mod selection;
mod text_numbers;

pub use class_set::ClassSet;
pub use classes::{Classes, own_name};
pub use constants::{
    argument_slots, base_class, base_name, dimensions_of, home_of, is_array_name, is_floating,
    is_floating_array, is_known, key_at, last_element, name_at, name_in, names_internal,
};
pub use hierarchy::Hierarchy;
pub use members::{
    MemberKey, has_flag, index_of, is_abstract, is_final, is_native, is_open, is_private, is_static,
};
pub use resolution::{class_method, field_of, interface_method};
pub use selection::{key_in, select, select_special};
pub use text_numbers::{Numbered, TextNumbers};
