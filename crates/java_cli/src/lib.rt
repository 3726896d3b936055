//! Runs a Java program from its class files: all that `jvt` does but collect its arguments.
#![tactic(auto)]

mod command_run;
mod generated;
mod laws;
mod program_run;
mod runnable;
mod top_call;

pub use answers::{Report, no_memory};
pub use command_line::{SinkName, Which, Why};
pub use laws::one_answer;
pub use program_run::run_checked;
pub use top_call::jvt;
