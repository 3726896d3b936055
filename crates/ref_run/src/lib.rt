//! Runs a history again by plain code of its own, one step after the other, with all threads in one table.
#![tactic(auto)]

mod asking;
mod calling;
mod changes;
mod creating;
mod endings;
mod entries;
mod fault;
mod going_on;
mod instructions;
mod laws;
mod monitor_requests;
mod owners;
mod phases;
mod picks;
mod replaying;
mod replies;
mod reply;
mod requests;
mod returning;
mod starting;
mod state;
mod statuses;
mod stepping;
mod taking;
mod tells;
mod thread_row;
mod throwing;
mod waiters;
mod waits;

pub use laws::replays_agree;
pub use replaying::{ReplayError, replay};
pub use state::RefState;
