//! The carriers of a run in operating-system threads, with one machine in a turn lock.
#![tactic(auto)]

mod execution;
mod post;
mod program_run;
mod readings;
mod rounds;
mod threads;
mod timed_machine;

pub use carrier_turns::{Ask, Hand, Turn, TurnOf, new_hands, play, turn};
pub use execution::Execution;
pub use post::{Post, run_carrier};
pub use program_run::run;
pub use threads::run_carriers;
pub use timed_machine::{MachineLock, TimedMachine};
