//! What the machine reaches outside: files, sinks for its output, a clock and a gate. Each is a trait with a
//! contract, with an implementation in memory for tests and one over the system.
#![tactic(auto)]

mod clock;
mod fault_plan;
mod file_store;
mod gate;
mod list_clock;
mod map_store;
mod mem_sink;
mod open_gate;
mod output;
mod real_clock;
mod sink;
mod std_sink;
mod step_clock;
mod store;

pub use clock::Clock;
pub use file_store::FileStore;
pub use gate::Gate;
pub use list_clock::ListClock;
pub use map_store::MapStore;
pub use mem_sink::MemSink;
pub use open_gate::OpenGate;
pub use output::{PartWritten, put_all};
pub use real_clock::RealClock;
pub use sink::{Failed, Sink};
pub use std_sink::StdSink;
pub use step_clock::StepClock;
pub use store::{Store, StoreError};
