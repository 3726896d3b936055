//! The state of a program with many threads, and the steps of one thread over it: its instructions, exceptions on their way, what it asks
//! of other threads, and the ends of its waits. Carriers and run deques come above.
#![tactic(auto)]

mod creating;
mod endings;
mod flags;
mod monitor_waits;
mod phases;
mod replies;
mod reply;
mod request_changes;
mod request_rows;
mod requests;
mod running;
mod starting;
mod state;
mod throwing;
mod time;
mod time_requests;
mod timers;
mod wait_requests;
mod waits;
mod wake_requests;
mod world;

pub use endings::ending;
pub use flags::{is_interrupted, take_interrupt};
pub use replies::go_on;
pub use requests::{RequestOutcome, make_request};
pub use running::run_step;
pub use state::{ProgramState, row_at, settle_status};
pub use throwing::throwing_step;
pub use time::{earliest, pass_time};
pub use timers::{clear_timer, set_timer};
pub use waits::{finish_wait, is_enabled, live_phase, woken_by_end};
pub use world::ThreadWorld;
