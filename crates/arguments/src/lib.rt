//! The command that the arguments of `jvt` spell, as clap reads them.
#![tactic(auto)]

mod clap_command;
mod command;
mod help_texts;
mod laws;
mod reading;

pub use command::{Command, CommandError, Gen, Run};
pub use laws::plain_words_spell;
pub use reading::read_command;
