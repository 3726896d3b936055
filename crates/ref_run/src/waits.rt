//! What a thread asks that may make it wait for a time, a permit or the end of another thread (java.lang.Thread, LockSupport).

ghost use Rattle.link_model.specs.World.{World};
ghost use Rattle.ref_run.specs.Replies.{Answers};
ghost use Rattle.ref_run.specs.States.{state_of};

use crate::fault::Fault;
use crate::reply::Reply;
use crate::state::{RefState, has_permit, is_interrupted, row_at, set_interrupted, set_permit};
use crate::statuses::is_live;
use ref_model::{Exception, ThreadRequest};
use thread_calls::{deadline_of, is_negative, is_over, is_zero, millis_after, park_deadline};
use vthread_state::Phase;

/// sleep, in milliseconds. A negative time is judged first, and then the interrupt status, which is cleared; 0 waits for nothing.
pub(crate) fn sleep(state: &mut RefState, t: u32, millis: i64) -> Result<Reply, Fault>
    ensures { (w : World) → Answers w (ThreadRequest.Sleeps millis) t
        (state_of state.old) result (state_of state.new) }
{
    if is_negative(Some(millis)) {
        return Ok(Reply::Throws(Exception::IllegalArgumentException));
    }
    if is_interrupted(state, t) {
        set_interrupted(state, t, false);
        return Ok(Reply::Throws(Exception::InterruptedException));
    }
    if is_zero(millis) {
        return Ok(Reply::Goes);
    }
    Ok(Reply::Waits(Phase::Asleep(millis_after(state.time, millis))))
}

/// join, without a time or with one in milliseconds. A negative time is judged first; a thread that isn't live isn't waited for; then the
/// interrupt status is judged, and cleared.
pub(crate) fn join(
    state: &mut RefState,
    t: u32,
    target: u32,
    millis: Option<i64>,
) -> Result<Reply, Fault>
    ensures { (w : World) → Answers w (ThreadRequest.Joins target millis) t
        (state_of state.old) result (state_of state.new) }
{
    if is_negative(millis) {
        return Ok(Reply::Throws(Exception::IllegalArgumentException));
    }
    let status = row_at(state, target)?.thread().status;
    if !is_live(status) {
        return Ok(Reply::Goes);
    }
    if is_interrupted(state, t) {
        set_interrupted(state, t, false);
        return Ok(Reply::Throws(Exception::InterruptedException));
    }
    let deadline = deadline_of(state.time, millis);
    Ok(Reply::Waits(Phase::Joining { target, deadline }))
}

/// park, without a time or with one in nanoseconds. A time of 0 or less does nothing; a permit is taken; an interrupt status stays set.
pub(crate) fn park(state: &mut RefState, t: u32, nanos: Option<i64>) -> Result<Reply, Fault>
    ensures { (w : World) → Answers w (ThreadRequest.Parks nanos) t
        (state_of state.old) result (state_of state.new) }
{
    if is_over(nanos) {
        return Ok(Reply::Goes);
    }
    if has_permit(state, t) {
        set_permit(state, t, false);
        return Ok(Reply::Goes);
    }
    if is_interrupted(state, t) {
        return Ok(Reply::Goes);
    }
    Ok(Reply::Waits(Phase::Parked(park_deadline(state.time, nanos))))
}
