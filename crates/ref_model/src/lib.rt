//! The reference machine: each Java thread has one whole stack, and any enabled thread may step. `specs/` has the
//! definitions; here are the plain types that they share with code, and the laws, each as a call that does nothing.
#![tactic(auto)]

mod ending;
mod exception;
mod laws;
mod limits;
mod request;

pub use ending::{Ending, Which};
pub use exception::Exception;
pub use laws::{entries_are_local, local_steps_stay_in_their_frames, prefixes_run};
pub use limits::Limits;
pub use request::ThreadRequest;
