//! Sleeping threads by their deadlines: which come next, and which are due.
#![tactic(auto)]

mod alarms;
mod laws;
mod sleeper;
mod wheel;

pub use laws::one_due_list;
pub use sleeper::{Key, Sleeper};
pub use wheel::Wheel;
