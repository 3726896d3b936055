//! The numbers of a program's names, array types, fields and methods, its Strings, and its code by number (JVMS 4.3, 4.5 to 4.7), as
//! `link_model` defines them.
#![tactic(auto)]

mod array_numbers;
mod codes;
mod infos;
mod kinds;
mod known_classes;
mod member_numbers;
mod names;
mod numbering;
mod strings;

pub use array_numbers::{ArrayNumbers, all_arrays};
pub use codes::{Codes, body_of, instrs_in};
pub use infos::{all_codes, all_fields, all_methods};
pub use kinds::{array_of_kind, array_of_primitive, kind_named, kind_of, signature_of};
pub use known_classes::KnownClasses;
pub use member_numbers::MemberNumbers;
pub use names::Names;
pub use numbering::Numbering;
pub use strings::{all_strings, string_number};
