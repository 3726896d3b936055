//! Invocations and returns of methods, and exceptions on their way (JVMS 2.6.4, 2.10, 6.5), over a heap and a mounted thread.
#![tactic(auto)]

mod arguments;
mod catching;
mod entering;
mod invocation_cache;
mod invocations;
mod pins;
mod receivers;
mod returning;
mod synchronized_calls;
mod target;
mod world;

pub use arguments::argument_slots;
pub use catching::{Caught, catch_object, drop_frame};
pub use entering::{Entered, enter};
pub use invocation_cache::InvocationCache;
pub use invocations::{invoke, static_callee};
pub use pins::is_pinned;
pub use returning::{Left, leave, return_unlocked};
pub use synchronized_calls::{
    Asked, SynchronizedCall, ask_for_monitor, class_monitor, enter_synchronized,
};
pub use target::{Callee, Target};
pub use world::CallWorld;
