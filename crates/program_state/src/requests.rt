//! What a thread asks of other threads, in one step.

ghost use Rattle.std.specs.Prelude.{◌≡◌, false, IfOk, OnOk};
ghost use Rattle.link_model.specs.World.{World};
ghost use Rattle.schedule_soundness.specs.PutLaws.{OthersStay};
ghost use Rattle.program_state.specs.Monitors.{AreSeated, HaveSameLists, ListsMove};
ghost use Rattle.program_state.specs.Replies.{Answers};
ghost use Rattle.program_state.specs.Requests.{IsPending, IsRequestMade, lacks_room};
ghost use Rattle.program_state.specs.Waking.{LeavesWoken, wake_outcome};

use crate::creating::create_thread;
use crate::replies::{conclude_reply, go_on};
use crate::reply::Reply;
use crate::request_changes::{set_daemon, set_name};
use crate::request_rows::tell_request;
use crate::starting::{Start, begin_thread, start_of};
use crate::state::ProgramState;
use crate::time_requests::{tell_millis, tell_nanos};
use crate::wait_requests::{join, park, sleep};
use crate::wake_requests::{clear_interrupt, interrupt, tell_interrupt, unpark};
use crate::world::ThreadWorld;
use continuation::Mounted;
use items::NoMemory;
use ref_model::ThreadRequest;
use std::alloc::Global;
use thread_steps::PendingRequest;

/// What became of a request.
#[derive(Clone, Copy)]
pub enum RequestOutcome {
    /// The thread that asked made its step, and no other one may go on by that.
    Done,
    /// The same, but it started this thread.
    Starts(u32),
    /// The same, but it gave this thread, another one that is live, a permit or an interrupt, with which it may go on.
    Wakes(u32),
    /// A thread is to be made where there are as many as there may be: nothing has changed.
    LacksThreads,
}

// The answer to a request that starts and wakes no thread. One that isn't built yet counts as memory run out.
fn answer(
    alloc: Global,
    state: &mut ProgramState,
    t: u32,
    request: ThreadRequest,
) -> Result<Reply, NoMemory>
    requires { lacks_room state.old request ≡ false }
    ensures answers { (w : World) → IfOk result (Answers w request (OthersStay t) t
        state.old state.new) }
    ensures lists { OnOk result (HaveSameLists state.old.monitors state.new.monitors) }
{
    match request {
        ThreadRequest::Creates { kind, object, name } => {
            create_thread(alloc, state, t, kind, object, name)
        }
        ThreadRequest::SetsDaemon { thread, daemon } => set_daemon(state, thread, daemon),
        ThreadRequest::SetsName { thread, name } => set_name(state, thread, name),
        ThreadRequest::Joins { thread, millis } => join(state, t, thread, millis),
        ThreadRequest::Sleeps(millis) => sleep(state, t, millis),
        ThreadRequest::Parks(nanos) => park(state, t, nanos),
        ThreadRequest::TellsInterrupt(u) => Ok(tell_interrupt(state, u)),
        ThreadRequest::TakesInterrupt => clear_interrupt(state, t),
        ThreadRequest::TellsNanos => Ok(tell_nanos(state)),
        ThreadRequest::TellsMillis => Ok(tell_millis(state)),
        other => tell_request(&state.threads, t, other),
    }
}

// A thread is started.
fn start_thread<W: ThreadWorld>(
    alloc: Global,
    world: &W,
    state: &mut ProgramState,
    mounted: &mut Mounted,
    pending: PendingRequest,
    u: u32,
) -> Result<RequestOutcome, NoMemory>
    requires starts { pending.request ≡ ThreadRequest.Starts u }
    requires asks { IsPending (W.world world.now) pending state.old.memory
        mounted.old.stack.frames }
    requires seated { AreSeated state.old.monitors state.old.threads }
    ensures made { IfOk result (λ outcome. IsRequestMade (W.world world.now) pending outcome
        state.old mounted.old state.new mounted.new) }
    ensures lists { OnOk result (ListsMove state.old.monitors state.new.monitors) }
    ensures thread { mounted.new.thread ≡ mounted.old.thread }
{
    match start_of(alloc, world, state, u)? {
        Start::Begins(first) => {
            begin_thread(state, u, first)?;
            mounted.operands_fit();
            go_on(mounted, pending);
            Ok(RequestOutcome::Starts(u))
        }
        Start::Throws(exception) => {
            let reply = Reply::Throws(exception);
            conclude_reply(world, state, mounted, pending, reply)?;
            Ok(RequestOutcome::Done)
        }
    }
}

// A permit or an interrupt for a thread. The thread, where it is another one that is live. Any other request counts as memory run out.
fn give_wake(
    state: &mut ProgramState,
    t: u32,
    request: ThreadRequest,
) -> Result<Option<u32>, NoMemory>
    requires seated { AreSeated state.old.monitors state.old.threads }
    ensures answers { (w : World) → IfOk result (λ woken. Answers w request (LeavesWoken t woken) t
        state.old state.new Reply.Goes) }
    ensures lists { OnOk result (ListsMove state.old.monitors state.new.monitors) }
{
    match request {
        ThreadRequest::Unparks(u) => unpark(state, t, u),
        ThreadRequest::Interrupts(u) => interrupt(state, t, u),
        _ => Err(NoMemory),
    }
}

// What becomes of a request that woke this thread, or none.
fn outcome_of(woken: Option<u32>) -> RequestOutcome
    ensures { result ≡ wake_outcome woken }
{
    match woken {
        Some(u) => RequestOutcome::Wakes(u),
        None => RequestOutcome::Done,
    }
}

// A thread is given a permit or an interrupt.
fn wake_thread<W: ThreadWorld>(
    world: &W,
    state: &mut ProgramState,
    mounted: &mut Mounted,
    pending: PendingRequest,
) -> Result<RequestOutcome, NoMemory>
    requires asks { IsPending (W.world world.now) pending state.old.memory
        mounted.old.stack.frames }
    requires seated { AreSeated state.old.monitors state.old.threads }
    ensures made { IfOk result (λ outcome. IsRequestMade (W.world world.now) pending outcome
        state.old mounted.old state.new mounted.new) }
    ensures lists { OnOk result (ListsMove state.old.monitors state.new.monitors) }
    ensures thread { mounted.new.thread ≡ mounted.old.thread }
{
    let woken = give_wake(state, mounted.thread(), pending.request)?;
    mounted.operands_fit();
    go_on(mounted, pending);
    Ok(outcome_of(woken))
}

// Whether a request makes a thread where there may be no more.
fn lacks_threads(state: &ProgramState, request: ThreadRequest) -> bool
    ensures { result ≡ lacks_room state.now request }
{
    matches!(request, ThreadRequest::Creates { .. }) && state.threads.count() >= state.most_threads
}

// Any other request is answered, and the thread goes on.
fn conclude_request<W: ThreadWorld>(
    alloc: Global,
    world: &W,
    state: &mut ProgramState,
    mounted: &mut Mounted,
    pending: PendingRequest,
) -> Result<RequestOutcome, NoMemory>
    requires asks { IsPending (W.world world.now) pending state.old.memory
        mounted.old.stack.frames }
    ensures made { IfOk result (λ outcome. IsRequestMade (W.world world.now) pending outcome
        state.old mounted.old state.new mounted.new) }
    ensures lists { OnOk result (ListsMove state.old.monitors state.new.monitors) }
    ensures thread { mounted.new.thread ≡ mounted.old.thread }
{
    if lacks_threads(state, pending.request) {
        return Ok(RequestOutcome::LacksThreads);
    }
    let reply = answer(alloc, state, mounted.thread(), pending.request)?;
    conclude_reply(world, state, mounted, pending, reply)?;
    Ok(RequestOutcome::Done)
}

/// Does what an instruction asks. What isn't built yet, and what a typed program doesn't have, counts as memory run out; the state is then
/// of no use.
pub fn make_request<W: ThreadWorld>(
    alloc: Global,
    world: &W,
    state: &mut ProgramState,
    mounted: &mut Mounted,
    pending: PendingRequest,
) -> Result<RequestOutcome, NoMemory>
    requires asks { IsPending (W.world world.now) pending state.old.memory
        mounted.old.stack.frames }
    requires seated { AreSeated state.old.monitors state.old.threads }
    ensures made { IfOk result (λ outcome. IsRequestMade (W.world world.now) pending outcome
        state.old mounted.old state.new mounted.new) }
    ensures lists { OnOk result (ListsMove state.old.monitors state.new.monitors) }
    ensures thread { mounted.new.thread ≡ mounted.old.thread }
{
    match pending.request {
        ThreadRequest::Starts(u) => start_thread(alloc, world, state, mounted, pending, u),
        ThreadRequest::Unparks(_) | ThreadRequest::Interrupts(_) => {
            wake_thread(world, state, mounted, pending)
        }
        _ => conclude_request(alloc, world, state, mounted, pending),
    }
}
