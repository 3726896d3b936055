//! What is told of a thread whose wait is over.

ghost use Rattle.std.specs.Prelude.{◌≡◌, List, Some, IfOk, is_some};
ghost use Rattle.state_model.specs.Frames.{Frame};
ghost use Rattle.ref_model.specs.Requests.{request_of, request_result};
ghost use Rattle.ref_model.specs.Resuming as resuming;
ghost use Rattle.ref_run.specs.States.{frames_of, state_of};

use crate::state::{RefState, row_at};
use items::NoMemory;
use ref_model::ThreadRequest;

/// Whether a request gives something back.
pub(crate) fn gives_back(request: ThreadRequest) -> bool
    ensures { result ≡ is_some (request_result (request_of request)) }
{
    match request {
        ThreadRequest::Current
        | ThreadRequest::TellsInterrupt(_)
        | ThreadRequest::TakesInterrupt
        | ThreadRequest::TellsAlive(_)
        | ThreadRequest::TellsVirtual(_)
        | ThreadRequest::TellsDaemon(_)
        | ThreadRequest::TellsName(_)
        | ThreadRequest::TellsState(_)
        | ThreadRequest::TellsNanos
        | ThreadRequest::TellsMillis => true,
        _ => false,
    }
}

/// Whether a thread hasn't begun its first frame, and waits for the monitor of an object.
pub(crate) fn is_first_entry(state: &RefState, t: u32, o: u32) -> Result<bool, NoMemory>
    ensures { IfOk result (λ first. (frames : List Frame)
        → frames_of (state_of state.now) t ≡ Some frames
        → first ≡ resuming.is_first_entry o frames) }
{
    Ok(row_at(state, t)?.is_first_entry(o))
}
