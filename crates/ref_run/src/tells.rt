//! What a thread asks that changes nothing (java.lang.Thread, java.lang.System).

ghost use Rattle.std.specs.Prelude.{◌≡◌, ◌+◌, ℕ, IfOk};
ghost use Rattle.link_model.specs.World.{World};
ghost use Rattle.ref_model.specs.ObjectNatives as natives;
ghost use Rattle.ref_model.specs.Opening as opening;
ghost use Rattle.ref_model.specs.Requesting as requesting;
ghost use Rattle.ref_run.specs.Replies.{Tells};
ghost use Rattle.ref_run.specs.States.{state_of};

use crate::reply::Reply;
use crate::state::{RefState, is_interrupted, row_at};
use crate::statuses::{is_live, is_virtual};
use instruction_rows::Value;
use items::NoMemory;
use link_model::FIRST_STATE;
use ref_model::ThreadRequest;
use thread_calls::{nano_time, time_millis};
use vthread_state::JavaState;

/// A boolean as an answer.
pub(crate) fn tell(b: bool) -> Reply
    ensures { result ≡ Reply.Gives (natives.boolean b) }
{
    Reply::Gives(Value::Int(i32::from(b)))
}

// The object of a state of a thread (Thread.State).
fn state_object(state: JavaState) -> u32
    ensures { result ≡ opening.first_state + requesting.state_ordinal state }
{
    let ordinal = match state {
        JavaState::New => 0,
        JavaState::Runnable => 1,
        JavaState::Blocked => 2,
        JavaState::Waiting => 3,
        JavaState::TimedWaiting => 4,
        JavaState::Terminated => 5,
    };
    FIRST_STATE + ordinal
}

// getState.
fn tell_state(state: &RefState, u: u32) -> Result<Reply, NoMemory>
    ensures { (w : World) (t : ℕ) → IfOk result (Tells w (ThreadRequest.TellsState u) t
        (state_of state.now)) }
{
    let thread_state = JavaState::from(row_at(state, u)?.thread().status);
    Ok(Reply::Gives(Value::Ref(state_object(thread_state))))
}

/// The answer to what thread t asks, where it changes nothing. Any other request counts as memory run out, and so does a thread that isn't
/// there.
pub(crate) fn tell_request(
    state: &RefState,
    t: u32,
    request: ThreadRequest,
) -> Result<Reply, NoMemory>
    ensures { (w : World) → IfOk result (Tells w request t (state_of state.now)) }
{
    match request {
        ThreadRequest::Current => Ok(Reply::Gives(Value::Ref(row_at(state, t)?.thread().object))),
        ThreadRequest::Yields => Ok(Reply::Goes),
        ThreadRequest::TellsInterrupt(u) => Ok(tell(is_interrupted(state, u))),
        ThreadRequest::TellsAlive(u) => Ok(tell(is_live(row_at(state, u)?.thread().status))),
        ThreadRequest::TellsVirtual(u) => Ok(tell(is_virtual(row_at(state, u)?.thread().kind))),
        ThreadRequest::TellsDaemon(u) => Ok(tell(row_at(state, u)?.thread().daemon)),
        ThreadRequest::TellsName(u) => {
            Ok(Reply::Gives(Value::Ref(row_at(state, u)?.thread().name)))
        }
        ThreadRequest::TellsState(u) => tell_state(state, u),
        ThreadRequest::TellsNanos => Ok(Reply::Gives(Value::Long(nano_time(state.time)))),
        ThreadRequest::TellsMillis => Ok(Reply::Gives(Value::Long(time_millis(state.time)))),
        _ => Err(NoMemory),
    }
}
