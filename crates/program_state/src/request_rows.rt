//! What is asked of the table of threads alone (java.lang.Thread): the answer, with nothing changed.

ghost use Rattle.std.specs.Prelude.{◌≡◌, ℕ, ◌+◌, None, IfOk};
ghost use Rattle.link_model.specs.World.{World};
ghost use Rattle.ref_model.specs.Ending as ending;
ghost use Rattle.ref_model.specs.ObjectNatives as natives;
ghost use Rattle.ref_model.specs.Opening as opening;
ghost use Rattle.ref_model.specs.Requesting as requesting;
ghost use Rattle.program_state.specs.Replies.{IsTold};

use crate::reply::Reply;
use crate::state::row_at;
use instruction_rows::Value;
use items::NoMemory;
use link_model::FIRST_STATE;
use ref_model::ThreadRequest;
use vthread_state::{JavaState, Status, ThreadKind, ThreadTable};

/// Whether a thread was started and didn't end.
pub(crate) fn is_live(status: Status) -> bool
    ensures { result ≡ ending.is_live status }
{
    matches!(status, Status::Live(_))
}

/// Whether a thread is a virtual one (JEP 444).
pub(crate) fn is_virtual(kind: ThreadKind) -> bool
    ensures { result ≡ requesting.is_virtual kind }
{
    matches!(kind, ThreadKind::Virtual)
}

/// A boolean as an answer.
pub(crate) fn tell(b: bool) -> Reply
    ensures { result ≡ Reply.Gives (natives.boolean b) }
{
    Reply::Gives(Value::Int(i32::from(b)))
}

// The object of a state of a thread (Thread.State).
fn state_object(state: JavaState) -> u32
    ensures { result ≡ opening.first_state + requesting.state_ordinal state }
{
    let ordinal = match state {
        JavaState::New => 0,
        JavaState::Runnable => 1,
        JavaState::Blocked => 2,
        JavaState::Waiting => 3,
        JavaState::TimedWaiting => 4,
        JavaState::Terminated => 5,
    };
    FIRST_STATE + ordinal
}

/// The answer to what thread t asks, where the table alone tells it. Any other request counts as memory run out, and so does a thread that
/// isn't there.
pub(crate) fn tell_request(
    threads: &ThreadTable,
    t: u32,
    request: ThreadRequest,
) -> Result<Reply, NoMemory>
    ensures { (w : World) → IfOk result (IsTold w request t threads.now) }
{
    match request {
        ThreadRequest::Current => Ok(Reply::Gives(Value::Ref(row_at(threads, t)?.object))),
        ThreadRequest::Yields => Ok(Reply::Goes),
        ThreadRequest::TellsAlive(u) => Ok(tell(is_live(row_at(threads, u)?.status))),
        ThreadRequest::TellsVirtual(u) => Ok(tell(is_virtual(row_at(threads, u)?.kind))),
        ThreadRequest::TellsDaemon(u) => Ok(tell(row_at(threads, u)?.daemon)),
        ThreadRequest::TellsName(u) => Ok(Reply::Gives(Value::Ref(row_at(threads, u)?.name))),
        ThreadRequest::TellsState(u) => {
            let state = JavaState::from(row_at(threads, u)?.status);
            Ok(Reply::Gives(Value::Ref(state_object(state))))
        }
        _ => Err(NoMemory),
    }
}
