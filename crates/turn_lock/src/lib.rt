//! One value that several carriers work on in turns.
#![tactic(auto)]

mod dealing;
mod key;
mod lock;
mod moves;
mod seat;
mod taking;
mod view;
mod waiting;

pub use lock::{Held, TurnLock};
pub use seat::Seat;
