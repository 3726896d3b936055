//! What a thread asks of a monitor (JLS 17.1, 17.2).

ghost use Rattle.std.specs.Prelude.{◌≡◌, IfOk, OnOk};
ghost use Rattle.ref_model.specs.Requests.{request_of};
ghost use Rattle.vthread_state.specs.declared.phase.Phase.TheVariants.{Run};
ghost use Rattle.program_state.specs.Monitors.{AreSeated, ListsMove};
ghost use Rattle.program_state.specs.Requests.{IsPending};
ghost use Rattle.monitor_steps.specs.Outcomes.{IsMade};
ghost use Rattle.monitor_steps.specs.Replies.{AnswersSo};

use crate::entering::enter_monitor;
use crate::notifying::{notify, notify_all};
use crate::outcome::MonitorOutcome;
use crate::owning::leave_once;
use crate::reply::MonitorReply;
use crate::replying::conclude;
use crate::waiting::wait_on;
use continuation::Mounted;
use items::NoMemory;
use program_state::{ProgramState, ThreadWorld};
use ref_model::{Exception, ThreadRequest};
use thread_steps::PendingRequest;

// monitorenter: the thread has the monitor, or waits in line for it.
fn enter(state: &mut ProgramState, t: u32, o: u32) -> Result<MonitorReply, NoMemory>
    requires { AreSeated state.old.monitors state.old.threads }
    ensures { IfOk result (AnswersSo (request_of (ThreadRequest.Enters o)) t
        state.old state.new) }
{
    if enter_monitor(state, t, o)? {
        Ok(MonitorReply::Goes(MonitorOutcome::Done))
    } else {
        Ok(MonitorReply::Waits(MonitorOutcome::Done))
    }
}

// monitorexit, of the owner alone.
fn exit(state: &mut ProgramState, t: u32, o: u32) -> Result<MonitorReply, NoMemory>
    ensures { IfOk result (AnswersSo (request_of (ThreadRequest.Exits o)) t
        state.old state.new) }
{
    match leave_once(&mut state.monitors, t, o)? {
        Some(outcome) => Ok(MonitorReply::Goes(outcome)),
        None => Ok(MonitorReply::Throws(Exception::IllegalMonitorStateException)),
    }
}

// The answer to a request on a monitor. Any other request counts as memory run out.
fn answer(
    state: &mut ProgramState,
    t: u32,
    request: ThreadRequest,
) -> Result<MonitorReply, NoMemory>
    requires { AreSeated state.old.monitors state.old.threads }
    ensures { IfOk result (AnswersSo (request_of request) t state.old state.new) }
{
    match request {
        ThreadRequest::Enters(monitor) => enter(state, t, monitor),
        ThreadRequest::Exits(monitor) => exit(state, t, monitor),
        ThreadRequest::Notifies(monitor) => notify(state, t, monitor),
        ThreadRequest::NotifiesAll(monitor) => notify_all(state, t, monitor),
        ThreadRequest::WaitsOn { monitor, millis } => wait_on(state, t, monitor, millis),
        _ => Err(NoMemory),
    }
}

/// Does what an instruction asks of a monitor. Any other request counts as memory run out; the state is then of no use.
pub fn make_monitor_request<W: ThreadWorld>(
    world: &W,
    state: &mut ProgramState,
    mounted: &mut Mounted,
    pending: PendingRequest,
) -> Result<MonitorOutcome, NoMemory>
    requires asks { IsPending (W.world world.now) pending state.old.memory
        mounted.old.stack.frames }
    requires seated { AreSeated state.old.monitors state.old.threads }
    ensures made { IfOk result (λ outcome. IsMade (W.world world.now) outcome Run mounted.old.thread
        state.old mounted.old.stack.frames state.new mounted.new.stack.frames) }
    ensures lists { OnOk result (ListsMove state.old.monitors state.new.monitors) }
    ensures thread { mounted.new.thread ≡ mounted.old.thread }
{
    let reply = answer(state, mounted.thread(), pending.request)?;
    conclude(world, state, mounted, pending, reply)
}
