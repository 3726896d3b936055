//! What the machine does in place of the code of native methods (the API of `Object`, `String`, `StringBuilder`, `System` and
//! `PrintStream`). Those of threads, monitors and the clock test what they work on, and ask for the rest.
#![tactic(auto)]

mod answer;
mod answers;
mod arguments;
mod builder_natives;
mod class_names;
mod object_natives;
mod printing;
mod run;
mod state;
mod string_natives;
mod texts;
mod thread_natives;
mod utf8;
mod world;

pub use arguments::{Arguments, takes};
pub use run::run_native;
pub use state::NativeState;
pub use texts::{hex_text, int_text, long_text, text_hash};
pub use utf8::push_text;
pub use world::NativeWorld;
