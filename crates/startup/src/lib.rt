//! The state in which a program begins (JVMS 5.2, 5.5, 2.9.2): its first objects, its static fields, and the frames of main and of the
//! class initializers.
#![tactic(auto)]

mod begin;
mod class_order;
mod first_frames;
mod first_heap;
mod first_statics;
mod library;
mod typed;

pub use begin::{Opened, open};
pub use runtime_program::ReadyProgram;
pub use typed::open_typed;
