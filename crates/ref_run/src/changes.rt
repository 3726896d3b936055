//! What a thread asks that changes a thread and never waits (java.lang.Thread, LockSupport).

ghost use Rattle.std.specs.Prelude.{◌≡◌, ◌&&◌, not};
ghost use Rattle.link_model.specs.World.{World};
ghost use Rattle.ref_model.specs.Requesting as requesting;
ghost use Rattle.ref_run.specs.Replies.{Answers};
ghost use Rattle.ref_run.specs.States.{state_of};

use crate::fault::Fault;
use crate::reply::Reply;
use crate::state::{
    RefState, interrupt, is_interrupted, row_at, set_daemon, set_interrupted, set_name, unpark,
};
use crate::statuses::{is_live, is_virtual};
use crate::tells::tell;
use ref_model::{Exception, ThreadRequest};

/// interrupted, which clears the status of the thread that asks.
pub(crate) fn take_interrupt(state: &mut RefState, t: u32) -> Result<Reply, Fault>
    ensures { (w : World) → Answers w ThreadRequest.TakesInterrupt t
        (state_of state.old) result (state_of state.new) }
{
    let interrupted = is_interrupted(state, t);
    set_interrupted(state, t, false);
    Ok(tell(interrupted))
}

/// interrupt.
pub(crate) fn interrupt_thread(state: &mut RefState, t: u32, u: u32) -> Result<Reply, Fault>
    ensures { (w : World) → Answers w (ThreadRequest.Interrupts u) t
        (state_of state.old) result (state_of state.new) }
{
    let _ = t;
    interrupt(state, u);
    Ok(Reply::Goes)
}

/// unpark.
pub(crate) fn unpark_thread(state: &mut RefState, t: u32, u: u32) -> Result<Reply, Fault>
    ensures { (w : World) → Answers w (ThreadRequest.Unparks u) t
        (state_of state.old) result (state_of state.new) }
{
    let _ = t;
    unpark(state, u);
    Ok(Reply::Goes)
}

/// setName, by the String.
pub(crate) fn name_thread(state: &mut RefState, t: u32, u: u32, name: u32) -> Result<Reply, Fault>
    ensures { (w : World) → Answers w (ThreadRequest.SetsName u name) t
        (state_of state.old) result (state_of state.new) }
{
    let _ = t;
    set_name(state, u, name);
    Ok(Reply::Goes)
}

/// setDaemon: a virtual thread stays a daemon, and a thread that was started stays what it is.
pub(crate) fn make_daemon(
    state: &mut RefState,
    t: u32,
    u: u32,
    daemon: bool,
) -> Result<Reply, Fault>
    ensures { (w : World) → Answers w (ThreadRequest.SetsDaemon u daemon) t
        (state_of state.old) result (state_of state.new) }
{
    let _ = t;
    let thread = row_at(state, u)?.thread();
    if is_virtual(thread.kind) && !daemon {
        return Ok(Reply::Throws(Exception::IllegalArgumentException));
    }
    if is_live(thread.status) {
        return Ok(Reply::Throws(Exception::IllegalThreadStateException));
    }
    set_daemon(state, u, daemon);
    Ok(Reply::Goes)
}
