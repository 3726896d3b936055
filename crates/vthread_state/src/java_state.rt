//! The state of a thread as the program sees it (java.lang.Thread.State).

ghost use Rattle.std.specs.Prelude.{◌≡◌};
ghost use Rattle.vthread_state.specs.JavaState.{waiting};

use crate::phase::Phase;
use crate::thread::Status;

/// The state of a thread as the Java program sees it (`Thread.State`).
#[derive(Clone, Copy, Debug, PartialEq, Eq)]
pub enum JavaState {
    New,
    Runnable,
    Blocked,
    Waiting,
    TimedWaiting,
    Terminated,
}

impl From<Status> for JavaState {
    ghost use Rattle.std.specs.Prelude.{◌≡◌};
    ghost use Rattle.vthread_state.specs.JavaState.{java_state};

    ghost from_gives = { λ status state. state ≡ java_state status };

    fn from(status: Status) -> Self {
        match status {
            Status::New => JavaState::New,
            Status::Live(Phase::Run | Phase::Throwing(_)) => JavaState::Runnable,
            Status::Live(Phase::Entering(_) | Phase::Reenter { .. }) => JavaState::Blocked,
            Status::Live(Phase::Waiting { deadline, .. } | Phase::Joining { deadline, .. }) => {
                waiting_until(deadline)
            }
            Status::Live(Phase::Parked(deadline)) => waiting_until(deadline),
            Status::Live(Phase::Asleep(_)) => JavaState::TimedWaiting,
            Status::Done => JavaState::Terminated,
        }
    }
}

fn waiting_until(deadline: Option<u64>) -> JavaState
    ensures { result ≡ waiting deadline }
{
    match deadline {
        Some(_) => JavaState::TimedWaiting,
        None => JavaState::Waiting,
    }
}
