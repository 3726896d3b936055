//! The body of a method that is assembled, made of what its lines say.
#![tactic(auto)]

mod code;
mod error;
mod frame_types;
mod frames;
mod growing;
mod mention;
mod placed;
mod rows;

pub use code::code_of;
pub use error::BodyError;
pub use frame_types::types_of;
pub use frames::stack_map_of;
pub use growing::Instructions;
pub use mention::mention_of;
pub use placed::{Placed, PlacedFrame, PlacedRow, PlacedType};
pub use rows::rows_of;
