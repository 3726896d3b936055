//! One row for each instruction (JVMS 6.5), and what it means for slots and for types. `specs/` has the definitions;
//! here are the plain types that they speak of, the tests that verifier and interpreter share, and the laws, each as
//! a call that does nothing.
#![tactic(auto)]

mod comparison;
mod laws;
mod row_why;
mod value;
mod verification_types;

pub use comparison::compares;
pub use laws::{rows_are_marked, rows_keep_kinds};
pub use row_why::RowWhy;
pub use value::{Slot, Value};
pub use verification_types::{is_narrow, is_wide, kind_of_type};
