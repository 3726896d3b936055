//! Carriers: what each holds outside the machine, its turns, and lists of turns.
#![tactic(auto)]

mod acts;
mod answers;
mod ask;
mod hand;
mod local;
mod mounted_steps;
mod plays;
mod turns;

pub use ask::{Ask, Turn};
pub use hand::Hand;
pub use plays::{TurnOf, do_asked, new_hands, play};
pub use turns::turn;
