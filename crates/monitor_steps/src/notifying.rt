//! Threads that notify others, which wait on a monitor (JLS 17.2.2).

ghost use Rattle.std.specs.Prelude.{IfOk, OnOk};
ghost use Rattle.ref_model.specs.Requests.{request_of};
ghost use Rattle.monitor_steps.specs.Replies.{AnswersSo};
ghost use Rattle.monitor_steps.specs.Waits.{IsNotifiedThere, NotifiesAll, NotifiesFirst};

use crate::outcome::MonitorOutcome;
use crate::owning::is_owner;
use crate::phases::set_phase;
use crate::reply::MonitorReply;
use items::NoMemory;
use program_state::{ProgramState, clear_timer, live_phase};
use ref_model::{Exception, ThreadRequest};
use vthread_state::{Phase, Wake};

// A thread that waited on a monitor has been notified, and is in line for it. Any other thread counts as memory run out.
fn end_wait(state: &mut ProgramState, u: u32) -> Result<(), NoMemory>
    ensures { OnOk result (IsNotifiedThere u state.old state.new) }
{
    let Phase::Waiting { monitor, count, .. } = live_phase(&state.threads, u)? else {
        return Err(NoMemory);
    };
    clear_timer(&mut state.wheel, &mut state.keys, u)?;
    let phase = Phase::Reenter {
        monitor,
        count,
        wake: Wake::Notified,
    };
    set_phase(&mut state.threads, u, phase)
}

// The owner of a monitor notifies the first thread that waits on it: that thread. Another thread than the owner counts as memory run out.
fn notify_first(state: &mut ProgramState, t: u32, o: u32) -> Result<Option<u32>, NoMemory>
    ensures { IfOk result (NotifiesFirst o state.old state.new) }
{
    let Ok(waiter) = state.monitors.notify(o, t) else {
        return Err(NoMemory);
    };
    match waiter {
        Some(u) => {
            end_wait(state, u)?;
            Ok(Some(u))
        }
        None => Ok(None),
    }
}

/// notify, of the owner alone.
pub(crate) fn notify(state: &mut ProgramState, t: u32, o: u32) -> Result<MonitorReply, NoMemory>
    ensures { IfOk result (AnswersSo (request_of (ThreadRequest.Notifies o)) t
        state.old state.new) }
{
    if !is_owner(&state.monitors, t, o) {
        return Ok(MonitorReply::Throws(Exception::IllegalMonitorStateException));
    }
    match notify_first(state, t, o)? {
        Some(u) => Ok(MonitorReply::Goes(MonitorOutcome::Notifies(u))),
        None => Ok(MonitorReply::Goes(MonitorOutcome::Done)),
    }
}

// The owner of a monitor notifies each thread that waits on it, in their order. Another thread than the owner counts as memory run out.
fn notify_each(state: &mut ProgramState, t: u32, o: u32) -> Result<(), NoMemory>
    ensures { OnOk result (NotifiesAll o state.old state.new) }
{
    for _ in 0..state.threads.count() {
        let waiter = notify_first(state, t, o)?;
        if waiter.is_none() {
            return Ok(());
        }
    }
    Err(NoMemory)
}

/// notifyAll, of the owner alone.
pub(crate) fn notify_all(state: &mut ProgramState, t: u32, o: u32) -> Result<MonitorReply, NoMemory>
    ensures { IfOk result (AnswersSo (request_of (ThreadRequest.NotifiesAll o)) t
        state.old state.new) }
{
    if !is_owner(&state.monitors, t, o) {
        return Ok(MonitorReply::Throws(Exception::IllegalMonitorStateException));
    }
    notify_each(state, t, o)?;
    Ok(MonitorReply::Goes(MonitorOutcome::Done))
}
