//! Threads that wait on a monitor (JLS 17.2.1).

ghost use Rattle.std.specs.Prelude.{IfOk};
ghost use Rattle.ref_model.specs.Requests.{request_of};
ghost use Rattle.program_state.specs.Monitors.{AreSeated};
ghost use Rattle.monitor_steps.specs.Replies.{AnswersSo};
ghost use Rattle.monitor_steps.specs.Waits.{IsRefusal, WaitsTo};

use crate::outcome::MonitorOutcome;
use crate::owning::is_owner;
use crate::phases::set_phase;
use crate::reply::MonitorReply;
use items::NoMemory;
use program_state::{ProgramState, set_timer, take_interrupt};
use ref_model::{Exception, ThreadRequest};
use thread_calls::{deadline_of, is_negative};
use vthread_state::Phase;

// Why a thread may not wait on a monitor: a negative time is judged first, then who owns the monitor, and then the interrupt status, which
// is cleared. `None`: it may, and nothing has changed.
fn wait_refusal(
    state: &mut ProgramState,
    t: u32,
    o: u32,
    millis: Option<i64>,
) -> Result<Option<Exception>, NoMemory>
    ensures { IfOk result (IsRefusal t o millis state.old state.new) }
{
    if is_negative(millis) {
        return Ok(Some(Exception::IllegalArgumentException));
    }
    if !is_owner(&state.monitors, t, o) {
        return Ok(Some(Exception::IllegalMonitorStateException));
    }
    let interrupted = take_interrupt(&mut state.wakes, t)?;
    if interrupted {
        return Ok(Some(Exception::InterruptedException));
    }
    Ok(None)
}

// The owner of a monitor leaves it wholly, and waits to be notified, until a deadline if there is one. The first thread in line for the
// monitor. A thread that isn't the owner counts as memory run out, and so does one in a list.
fn begin_wait(
    state: &mut ProgramState,
    t: u32,
    o: u32,
    deadline: Option<u64>,
) -> Result<Option<u32>, NoMemory>
    requires { AreSeated state.old.monitors state.old.threads }
    ensures { IfOk result (WaitsTo t o deadline state.old state.new) }
{
    if t >= state.threads.count() || state.monitors.holds(t) {
        return Err(NoMemory);
    }
    let Ok((count, first)) = state.monitors.wait(o, t) else {
        return Err(NoMemory);
    };
    set_timer(&mut state.wheel, &mut state.keys, state.time, t, deadline)?;
    let phase = Phase::Waiting {
        monitor: o,
        count,
        deadline,
    };
    set_phase(&mut state.threads, t, phase)?;
    Ok(first)
}

/// wait, without a time or with one in milliseconds.
pub(crate) fn wait_on(
    state: &mut ProgramState,
    t: u32,
    o: u32,
    millis: Option<i64>,
) -> Result<MonitorReply, NoMemory>
    requires { AreSeated state.old.monitors state.old.threads }
    ensures { IfOk result (AnswersSo (request_of (ThreadRequest.WaitsOn o millis)) t
        state.old state.new) }
{
    match wait_refusal(state, t, o, millis)? {
        Some(exception) => Ok(MonitorReply::Throws(exception)),
        None => {
            let deadline = deadline_of(state.time, millis);
            let first = begin_wait(state, t, o, deadline)?;
            Ok(MonitorReply::Waits(MonitorOutcome::Frees(first)))
        }
    }
}
