//! What wakes a thread that waits for no monitor: its permit (`LockSupport`) and its interrupt status (`Thread`).
#![tactic(auto)]

mod wakes;

pub use wakes::Wakes;
