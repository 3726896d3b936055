//! What a thread asks of a monitor (JLS 17.1, 17.2).

ghost use Rattle.link_model.specs.World.{World};
ghost use Rattle.ref_run.specs.Replies.{Answers};
ghost use Rattle.ref_run.specs.States.{state_of};

use crate::fault::Fault;
use crate::reply::Reply;
use crate::state::{
    RefState, count, enter, is_interrupted, leave, may_take, owns, set_interrupted, set_owner,
};
use crate::waiters::{has_waiter, notify_each};
use ref_model::{Exception, ThreadRequest};
use thread_calls::{deadline_of, is_negative};
use vthread_state::Phase;

/// monitorenter: the thread takes the monitor, or waits to enter it.
pub(crate) fn enter_monitor(state: &mut RefState, t: u32, o: u32) -> Result<Reply, Fault>
    ensures { (w : World) → Answers w (ThreadRequest.Enters o) t
        (state_of state.old) result (state_of state.new) }
{
    if !may_take(state, t, o) {
        return Ok(Reply::Waits(Phase::Entering(o)));
    }
    enter(state, t, o)?;
    Ok(Reply::Goes)
}

/// monitorexit.
pub(crate) fn exit_monitor(state: &mut RefState, t: u32, o: u32) -> Result<Reply, Fault>
    ensures { (w : World) → Answers w (ThreadRequest.Exits o) t
        (state_of state.old) result (state_of state.new) }
{
    if !owns(state, t, o) {
        return Ok(Reply::Throws(Exception::IllegalMonitorStateException));
    }
    leave(state, o)?;
    Ok(Reply::Goes)
}

/// Object.wait: a negative time is judged first, then the owner, and then the interrupt status, which is cleared. The monitor is left
/// wholly.
pub(crate) fn wait_on(
    state: &mut RefState,
    t: u32,
    monitor: u32,
    millis: Option<i64>,
) -> Result<Reply, Fault>
    ensures { (w : World) → Answers w (ThreadRequest.WaitsOn monitor millis) t
        (state_of state.old) result (state_of state.new) }
{
    if is_negative(millis) {
        return Ok(Reply::Throws(Exception::IllegalArgumentException));
    }
    if !owns(state, t, monitor) {
        return Ok(Reply::Throws(Exception::IllegalMonitorStateException));
    }
    if is_interrupted(state, t) {
        set_interrupted(state, t, false);
        return Ok(Reply::Throws(Exception::InterruptedException));
    }
    let count = count(state, monitor);
    let deadline = deadline_of(state.time, millis);
    set_owner(state, monitor, None)?;
    Ok(Reply::Waits(Phase::Waiting {
        monitor,
        count,
        deadline,
    }))
}

/// Object.notify in a step that picks no thread: nobody waits.
pub(crate) fn notify_none(state: &mut RefState, t: u32, o: u32) -> Result<Reply, Fault>
    ensures { (w : World) → Answers w (ThreadRequest.Notifies o) t
        (state_of state.old) result (state_of state.new) }
{
    if !owns(state, t, o) {
        return Ok(Reply::Throws(Exception::IllegalMonitorStateException));
    }
    if has_waiter(state, o) {
        return Err(Fault::NoStep);
    }
    Ok(Reply::Goes)
}

/// Object.notifyAll.
pub(crate) fn notify_all(state: &mut RefState, t: u32, o: u32) -> Result<Reply, Fault>
    ensures { (w : World) → Answers w (ThreadRequest.NotifiesAll o) t
        (state_of state.old) result (state_of state.new) }
{
    if !owns(state, t, o) {
        return Ok(Reply::Throws(Exception::IllegalMonitorStateException));
    }
    notify_each(state, o);
    Ok(Reply::Goes)
}
