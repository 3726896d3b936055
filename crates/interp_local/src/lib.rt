//! Runs the local instructions of a thread (JVMS 6.5): those that stay in its top frame, one after the other.
#![tactic(auto)]

mod constants;
mod execution;
mod fetched;
mod frame_run;
mod frame_step;
mod places;
mod prepared;
mod prepared_code;
mod quick_code;
mod quick_forms;
mod quick_run;
mod run;
mod staying;
mod switching;

pub use fetched::Fetched;
pub use prepared::Prepared;
pub use run::{Local, TopRun, run_and_fetch, run_local};
