//! The frames of a thread (JVMS 2.5.2, 2.6), one after the other in one run of slots: an invoked method's first local variables are
//! its caller's last operands, where they lie.
#![tactic(auto)]

mod error;
mod record;
mod slots;
mod stack;

pub use error::StackError;
pub use stack::{FrameView, MOST_FRAMES, Stack};
