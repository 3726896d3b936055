//! The steps of a thread: invocations, returns, instructions on fields, arrays and objects, and exceptions on their way, on each state and
//! each of its threads; and what instructions ask of the threads.
#![tactic(auto)]

mod calls;
mod concluding;
mod events;
mod instructions;
mod parts;
mod progress;
mod returns;
mod throwing;
mod world;

pub use concluding::raise;
pub use instructions::instruction_step;
pub use parts::Parts;
pub use progress::{MonitorReturn, PendingRequest, Progress};
pub use returns::{Return, return_at, return_unlocked};
pub use throwing::{MonitorThrow, Thrown, drop_unlocked, throw_unowned, throwing_step};
pub use world::MachineWorld;
