//! What a thread asks, and what becomes of it in its step.

ghost use Rattle.std.specs.Prelude.{◌≡◌, ◌∷◌, Some, ℕ, List};
ghost use Rattle.link_model.specs.World.{World};
ghost use Rattle.state_model.specs.Frames.{Frame};
ghost use Rattle.ref_model.specs.Requesting.{asked};
ghost use Rattle.ref_model.specs.Requests.{request_of};
ghost use Rattle.ref_model.specs.Starting as starting;
ghost use Rattle.ref_run.specs.GoingOn.{Makes};
ghost use Rattle.ref_run.specs.Replies.{Answers};
ghost use Rattle.ref_run.specs.States.{state_of};

use crate::changes::{interrupt_thread, make_daemon, name_thread, take_interrupt, unpark_thread};
use crate::creating::create_thread;
use crate::fault::Fault;
use crate::monitor_requests::{enter_monitor, exit_monitor, notify_all, notify_none, wait_on};
use crate::replies::conclude;
use crate::reply::Reply;
use crate::starting::start_thread;
use crate::state::RefState;
use crate::tells::tell_request;
use crate::waits::{join, park, sleep};
use ref_model::ThreadRequest;
use std::alloc::Global;
use thread_steps::{MachineWorld, PendingRequest};

// The answer to a request of a monitor, in a step that picks no thread, or to one that changes nothing.
fn answer_monitor(state: &mut RefState, t: u32, request: ThreadRequest) -> Result<Reply, Fault>
    ensures { (w : World) → Answers w request t (state_of state.old) result (state_of state.new) }
{
    match request {
        ThreadRequest::Enters(o) => enter_monitor(state, t, o),
        ThreadRequest::Exits(o) => exit_monitor(state, t, o),
        ThreadRequest::WaitsOn { monitor, millis } => wait_on(state, t, monitor, millis),
        ThreadRequest::Notifies(o) => notify_none(state, t, o),
        ThreadRequest::NotifiesAll(o) => notify_all(state, t, o),
        other => Ok(tell_request(state, t, other)?),
    }
}

// The answer to a request that starts no thread.
fn answer_plainly(
    alloc: Global,
    state: &mut RefState,
    t: u32,
    request: ThreadRequest,
) -> Result<Reply, Fault>
    ensures { (w : World) → Answers w request t (state_of state.old) result (state_of state.new) }
{
    match request {
        ThreadRequest::Creates { kind, object, name } => {
            create_thread(alloc, state, t, kind, object, name)
        }
        ThreadRequest::SetsDaemon { thread, daemon } => make_daemon(state, t, thread, daemon),
        ThreadRequest::SetsName { thread, name } => name_thread(state, t, thread, name),
        ThreadRequest::TakesInterrupt => take_interrupt(state, t),
        ThreadRequest::Interrupts(u) => interrupt_thread(state, t, u),
        ThreadRequest::Unparks(u) => unpark_thread(state, t, u),
        ThreadRequest::Joins { thread, millis } => join(state, t, thread, millis),
        ThreadRequest::Sleeps(millis) => sleep(state, t, millis),
        ThreadRequest::Parks(nanos) => park(state, t, nanos),
        other => answer_monitor(state, t, other),
    }
}

// The answer to a request. `run` is the method run of java.lang.Thread.
fn answer<W: MachineWorld>(
    alloc: Global,
    world: &W,
    state: &mut RefState,
    t: u32,
    run: Option<u32>,
    request: ThreadRequest,
) -> Result<Reply, Fault>
    requires { run ≡ starting.run_method (W.world world.now) }
    ensures { Answers (W.world world.now) request t
        (state_of state.old) result (state_of state.new) }
{
    match request {
        ThreadRequest::Starts(u) => start_thread(alloc, world, state, t, run, u),
        other => answer_plainly(alloc, state, t, other),
    }
}

/// Does what the instruction of thread t asks, in a step that picks no thread.
pub(crate) fn make_request<W: MachineWorld>(
    alloc: Global,
    world: &W,
    state: &mut RefState,
    t: u32,
    run: Option<u32>,
    pending: PendingRequest,
) -> Result<(), Fault>
    requires { run ≡ starting.run_method (W.world world.now) }
    ensures { Makes (λ r a. asked (W.world world.now) r t a (request_of pending.request)) t pending
        (state_of state.old) result state.new }
{
    let reply = answer(alloc, world, state, t, run, pending.request)?;
    conclude(alloc, world, state, t, pending, reply)?;
    Ok(())
}
