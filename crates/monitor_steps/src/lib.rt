//! The steps of a thread on monitors (JLS 17.1, 17.2), over the state of a program: it enters and leaves them, waits and notifies, calls
//! synchronized methods and returns from them, and throws through their frames.
#![tactic(auto)]

mod calling;
mod entering;
mod finishing;
mod leaving;
mod line;
mod notifying;
mod outcome;
mod owning;
mod phases;
mod reply;
mod replying;
mod requests;
mod returning;
mod throwing;
mod waiting;

pub use calling::make_call;
pub use finishing::finish_entry;
pub use leaving::leave_throw;
pub use outcome::MonitorOutcome;
pub use requests::make_monitor_request;
pub use returning::make_return;
