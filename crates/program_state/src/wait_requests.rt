//! What a thread asks that may make it wait (java.lang.Thread, LockSupport).

ghost use Rattle.std.specs.Prelude.{◌≡◌, IfOk};
ghost use Rattle.link_model.specs.World.{World};
ghost use Rattle.schedule_soundness.specs.PutLaws.{OthersStay};
ghost use Rattle.program_state.specs.Replies.{Answers};

use crate::flags::{is_interrupted, take_interrupt, take_permit};
use crate::reply::Reply;
use crate::request_rows::is_live;
use crate::state::{ProgramState, row_at};
use items::NoMemory;
use ref_model::{Exception, ThreadRequest};
use thread_calls::{deadline_of, is_negative, is_over, is_zero, millis_after, park_deadline};
use vthread_state::Phase;

/// sleep, in milliseconds. A negative time is judged first, and then the interrupt status, which is cleared; 0 waits for nothing.
pub(crate) fn sleep(state: &mut ProgramState, t: u32, millis: i64) -> Result<Reply, NoMemory>
    ensures answers { (w : World) → IfOk result (Answers w (ThreadRequest.Sleeps millis)
        (OthersStay t) t state.old state.new) }
    ensures monitors { state.new.monitors ≡ state.old.monitors }
{
    if is_negative(Some(millis)) {
        return Ok(Reply::Throws(Exception::IllegalArgumentException));
    }
    let interrupted = take_interrupt(&mut state.wakes, t)?;
    if interrupted {
        return Ok(Reply::Throws(Exception::InterruptedException));
    }
    if is_zero(millis) {
        return Ok(Reply::Goes);
    }
    Ok(Reply::Waits(Phase::Asleep(millis_after(state.time, millis))))
}

/// join, without a time or with one in milliseconds. A negative time is judged first; a thread that isn't live isn't waited for; then the
/// interrupt status is judged, and cleared.
pub(crate) fn join(
    state: &mut ProgramState,
    t: u32,
    target: u32,
    millis: Option<i64>,
) -> Result<Reply, NoMemory>
    ensures answers { (w : World) → IfOk result (Answers w (ThreadRequest.Joins target millis)
        (OthersStay t) t state.old state.new) }
    ensures monitors { state.new.monitors ≡ state.old.monitors }
{
    if is_negative(millis) {
        return Ok(Reply::Throws(Exception::IllegalArgumentException));
    }
    let row = row_at(&state.threads, target)?;
    if !is_live(row.status) {
        return Ok(Reply::Goes);
    }
    let interrupted = take_interrupt(&mut state.wakes, t)?;
    if interrupted {
        return Ok(Reply::Throws(Exception::InterruptedException));
    }
    let deadline = deadline_of(state.time, millis);
    Ok(Reply::Waits(Phase::Joining { target, deadline }))
}

/// park, without a time or with one in nanoseconds. A time of 0 or less does nothing; a permit is taken; an interrupt status stays set.
pub(crate) fn park(state: &mut ProgramState, t: u32, nanos: Option<i64>) -> Result<Reply, NoMemory>
    ensures answers { (w : World) → IfOk result (Answers w (ThreadRequest.Parks nanos)
        (OthersStay t) t state.old state.new) }
    ensures monitors { state.new.monitors ≡ state.old.monitors }
{
    if is_over(nanos) {
        return Ok(Reply::Goes);
    }
    let permitted = take_permit(&mut state.wakes, t)?;
    if permitted {
        return Ok(Reply::Goes);
    }
    if is_interrupted(&state.wakes, t) {
        return Ok(Reply::Goes);
    }
    Ok(Reply::Waits(Phase::Parked(park_deadline(state.time, nanos))))
}
