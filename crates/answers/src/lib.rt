//! What a call of `jvt` answers: its report, and what it writes.
#![tactic(auto)]

mod refusals;
mod report;
mod showing;
mod writing;

pub use refusals::{no_memory, refuse, refuse_arguments};
pub use report::Report;
pub use showing::show;
pub use writing::{put_both, put_part};
