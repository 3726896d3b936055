//! The class file that lines of assembler text make, line by line.
#![tactic(auto)]

mod assembly;
mod body_lines;
mod class_lines;
mod flags;
mod method_end;
mod names;
mod pooled;
mod stages;

pub use assembly::{Assembly, BodyParts, ClassParts, MethodParts, Stage};
