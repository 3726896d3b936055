//! The command line of `jvt`: the command that its arguments spell, and for each answer to it the exit status and the line.
#![tactic(auto)]

mod answer;
mod line;
mod names;
mod utf8;

pub use answer::{SinkName, Which, Why};
pub use arguments::{Command, CommandError, Gen, Run, read_command};
pub use line::{CANNOT_WRITE, Line, NO_MEMORY, USAGE, make_line};
pub use names::{Names, names_of, names_of_files, no_names};
