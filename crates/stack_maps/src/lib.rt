//! Whole frames from the body of a StackMapTable (JVMS 4.7.4).
#![tactic(auto)]

mod error;
mod frames;
mod map;
mod types;
mod verification_types;
mod whole;

pub use error::{MapError, MapWhy};
pub use map::{changes, expand, expansion_is_exact};
pub use types::{Base, FrameChange, FrameTypes, LocalsChange, VType};
