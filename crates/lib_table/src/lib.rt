//! The built-in classes: those of the Java API that programs may use, as class files.
#![tactic(auto)]

mod build;
mod code;
mod declarations;
mod instruction;
mod laws;
mod library;
mod native;
mod natives;
mod objects;
mod pool;
mod system;
mod texts;
mod thread_builders;
mod threads;
mod throwables;
mod words;

pub use laws::library_is_spelled;
pub use library::classes;
pub use native::Native;
pub use natives::native_of;
