//! The monitors of objects (JLS 17.1, 17.2): who owns one, who waits to take it, and who waits to be notified. A monitor that
//! nobody owns, enters or waits for takes no memory.
#![tactic(auto)]

mod monitors;
mod records;

pub use monitors::{Enter, Monitors};
pub use records::NotOwner;
