//! The table of threads: what each is, what it is at, and who waits for its end.
//!
//! A thread is New, Live or Done. A live thread is in one of these phases:
//!
//! | Phase | What it means | What ends it |
//! |---|---|---|
//! | Run | its next step is its next instruction | an instruction that waits, throws or ends the thread |
//! | Throwing | an exception looks for its handler, frame by frame | a handler; the end of the stack |
//! | Entering | it waits to enter a monitor | the monitor has no owner, and the thread takes it |
//! | Waiting | it waits in `Object.wait` | `notify`, an interrupt, its deadline: then it is in Reenter |
//! | Reenter | its wait ended, and it waits to enter the monitor again | the monitor has no owner, and the thread takes it |
//! | Parked | it waits in `LockSupport.park` | its permit, an interrupt, its deadline |
//! | Asleep | it waits in `Thread.sleep` | its deadline, an interrupt |
//! | Joining | it waits in `Thread.join` | the end of its target, its deadline, an interrupt |
//!
//!     New --start--> Live(Run) --set_phase--> Live(any phase) --finish--> Done
//!
//! A live virtual thread is in one of these places of the machine (JEP 444), which this table doesn't keep:
//!
//! | Place | What it means | What leads on |
//! |---|---|---|
//! | in a deque | a carrier may take it up | `next` of a carrier: mounted |
//! | mounted | a carrier makes its steps | it waits or yields, and its frames are frozen: in a deque, parked or in line; its end: Done |
//! | mounted and pinned | it has a native frame, and keeps its carrier while it waits | the return of that frame: mounted |
//! | parked | its frames are frozen while it is Parked, Asleep, Joining or Waiting | what ends its wait: in a deque, or in line |
//! | in line | its frames are frozen while it is Entering or Reenter | the monitor has no owner: in a deque |
#![tactic(auto)]

mod error;
mod java_state;
mod joiners;
mod laws;
mod phase;
mod table;
mod thread;

pub use error::{NotNew, ThreadError};
pub use java_state::JavaState;
pub use laws::one_thread_changes;
pub use phase::{Phase, Wake};
pub use table::ThreadTable;
pub use thread::{Status, Thread, ThreadKind};
