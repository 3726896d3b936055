//! Threads that wait: which may go on, how one goes on, and whom the end of a thread wakes.

ghost use Rattle.std.specs.Prelude.{◌≡◌, ◌<◌, ◌++◌, ◌∷◌, [], ℕ, Bool, None, Some, IfOk, OnOk, filter, length};
ghost use Rattle.instruction_rows.specs.Table.{row};
ghost use Rattle.vthread_state.specs.declared.phase.Phase.{Phase};
ghost use Rattle.vthread_state.specs.declared.thread.Status.TheVariants.{Live};
ghost use Rattle.vthread_state.specs.Threads.{status_at};
ghost use Rattle.ref_model.specs.Ending.{ending};
ghost use Rattle.ref_model.specs.Operands.{FindsOperands};
ghost use Rattle.ref_model.specs.Requests.{request_of};
ghost use Rattle.ref_model.specs.State.{State};
ghost use Rattle.ref_model.specs.Step.{enabled};
ghost use Rattle.heap_instructions.specs.Operands.{operands};
ghost use Rattle.invocation.specs.InvocationCache.{AreSelected};
ghost use Rattle.schedule_soundness.specs.PutLaws.{OthersStay};
ghost use Rattle.thread_steps.specs.Operands.{FindsNatives};
ghost use Rattle.program_state.specs.Requests.{IsPending};
ghost use Rattle.program_state.specs.Running.{StandsAt, Stays};
ghost use Rattle.program_state.specs.States.{IsState};
ghost use Rattle.program_state.specs.Steps.{StepsTo};
ghost use Rattle.program_state.specs.Waiting.{AreWoken, EndsWait, IsWakeTaken, has_ended_in, is_wait, lies_in, phase_goes_on_in, status_goes_on_in};

use crate::flags::{has_permit, is_interrupted, take_interrupt, take_permit};
use crate::replies::{conclude_reply, throw};
use crate::reply::Reply;
use crate::state::{ProgramState, row_at, set_status};
use crate::timers::clear_timer;
use crate::world::ThreadWorld;
use continuation::Mounted;
use invocation::InvocationCache;
use items::NoMemory;
use link_model::Resolution;
use opcodes::Instr;
use ref_model::{Exception, ThreadRequest};
use std::alloc::Global;
use thread_calls::is_reached;
use thread_steps::{PendingRequest, Progress, instruction_step};
use vthread_state::{Phase, Status, ThreadTable};
use wakes::Wakes;

// Whether a thread has ended.
fn is_done(threads: &ThreadTable, u: u32) -> bool
    ensures { result ≡ has_ended_in threads.now u }
{
    u < threads.count() && matches!(threads.row(u).status, Status::Done)
}

// Whether a live thread in a phase goes on.
fn phase_goes_on(state: &ProgramState, t: u32, phase: Phase) -> bool
    ensures { result ≡ phase_goes_on_in state.now t phase }
{
    match phase {
        Phase::Run | Phase::Throwing(_) => true,
        Phase::Parked(deadline) => {
            has_permit(&state.wakes, t)
                || (is_interrupted(&state.wakes, t) || is_reached(state.time, deadline))
        }
        Phase::Asleep(deadline) => {
            is_interrupted(&state.wakes, t) || is_reached(state.time, Some(deadline))
        }
        Phase::Joining { target, deadline } => {
            is_done(&state.threads, target)
                || (is_interrupted(&state.wakes, t) || is_reached(state.time, deadline))
        }
        Phase::Entering(monitor) | Phase::Reenter { monitor, .. } => {
            state.monitors.owner(monitor).is_none()
        }
        Phase::Waiting { .. } => false,
    }
}

// Whether a thread with a status goes on.
fn status_goes_on(state: &ProgramState, t: u32, status: Status) -> bool
    ensures { result ≡ status_goes_on_in state.now t status }
{
    match status {
        Status::Live(phase) => phase_goes_on(state, t, phase),
        Status::New | Status::Done => false,
    }
}

/// Whether a thread may make a step, where the program hasn't ended.
pub fn is_enabled(state: &ProgramState, t: u32) -> bool
    requires { t < length state.now.threads.threads }
    ensures { (r : State) (out : ℕ → Bool) → IsState state.now r out → ending r ≡ None
        → result ≡ enabled r t }
{
    status_goes_on(state, t, state.threads.row(t).status)
}

// Whether a thread's continuation lies among the frozen ones.
fn is_frozen(state: &ProgramState, u: u32) -> bool
    ensures { result ≡ lies_in state.now.frozen.items u }
{
    match state.frozen.get(u as usize) {
        Some(Some(_)) => true,
        _ => false,
    }
}

// Takes a thread too, if its continuation lies among the frozen ones.
fn push_frozen(woken: &mut Vec<u32>, state: &ProgramState, u: u32) -> Result<(), NoMemory>
    ensures { OnOk result (woken.new.items
        ≡ woken.old.items ++ filter (lies_in state.now.frozen.items) (u ∷ [])) }
{
    if is_frozen(state, u) {
        woken.push(u)?;
    }
    Ok(())
}

/// The threads that wait for the end of a thread and aren't mounted, in rising order.
pub fn woken_by_end(alloc: Global, state: &ProgramState, t: u32) -> Result<Vec<u32>, NoMemory>
    requires { t < length state.now.threads.threads }
    ensures { IfOk result (λ woken. AreWoken t state.now woken.items) }
{
    let mut woken = Vec::new(alloc);
    let joiners = state.threads.joiners(t)?;
    for u in &joiners {
        push_frozen(&mut woken, state, *u)?;
    }
    Ok(woken)
}

// What the instruction of a thread that waits asks: it is looked at again. What asks nothing counts as memory run out.
fn ask_again<W: ThreadWorld>(
    alloc: Global,
    world: &W,
    cache: &mut InvocationCache,
    state: &mut ProgramState,
    mounted: &mut Mounted,
    instr: &Instr,
    resolution: &Resolution,
) -> Result<PendingRequest, NoMemory>
    requires frame { 0 < length mounted.old.stack.frames }
    requires at { StandsAt (W.world world.now)
        (record { instr = instr.now; resolution = resolution.now }) mounted.old.stack.frames }
    requires operands { FindsOperands (W.world world.now) resolution.now (row instr.now.op)
        (operands mounted.old) }
    requires natives { FindsNatives (W.world world.now) resolution.now (row instr.now.op)
        state.old.memory.natives.heap mounted.old }
    requires selected { AreSelected (W.world world.now) cache.old }
    ensures pending { IfOk result (λ q. IsPending (W.world world.now) q state.old.memory
        mounted.old.stack.frames) }
    ensures stays { OnOk result (Stays state.old mounted.old state.new mounted.new) }
    ensures monitors { state.new.monitors ≡ state.old.monitors }
    ensures cache { AreSelected (W.world world.now) cache.new }
{
    let mut progress = Progress::Stepped;
    instruction_step(
        alloc,
        world,
        cache,
        &mut state.memory,
        mounted,
        &mut progress,
        instr,
        resolution,
    )?;
    match progress {
        Progress::Asks(pending) => Ok(pending),
        _ => Err(NoMemory),
    }
}

// Takes what ended the wait of a thread in a phase: its permit, where it was parked, and else its interrupt status, of which it says whether
// it was set. Any other phase counts as memory run out.
fn take_wake(wakes: &mut Wakes, t: u32, phase: Phase) -> Result<bool, NoMemory>
    ensures { IfOk result (λ interrupted. IsWakeTaken t phase interrupted wakes.old wakes.new) }
{
    match phase {
        Phase::Parked(_) => {
            take_permit(wakes, t)?;
            Ok(false)
        }
        Phase::Asleep(_) => take_interrupt(wakes, t),
        Phase::Joining { .. } => take_interrupt(wakes, t),
        _ => Err(NoMemory),
    }
}

/// The phase of a live thread. A thread that isn't live counts as memory run out.
pub fn live_phase(threads: &ThreadTable, t: u32) -> Result<Phase, NoMemory>
    ensures { IfOk result (λ phase. status_at threads.now t ≡ Some (Live phase)) }
{
    match row_at(threads, t)?.status {
        Status::Live(phase) => Ok(phase),
        Status::New | Status::Done => Err(NoMemory),
    }
}

// A thread that was parked, asleep or joined another runs, and its deadline comes off the wheel. Whether it is to throw
// InterruptedException: its interrupt status is cleared then. Any other thread counts as memory run out.
fn end_wait(state: &mut ProgramState, t: u32) -> Result<bool, NoMemory>
    ensures ends { IfOk result (λ interrupted. EndsWait t state.old state.new interrupted) }
    ensures monitors { state.new.monitors ≡ state.old.monitors }
{
    let phase = live_phase(&state.threads, t)?;
    clear_timer(&mut state.wheel, &mut state.keys, t)?;
    set_status(&mut state.threads, t, Status::Live(Phase::Run))?;
    take_wake(&mut state.wakes, t, phase)
}

// Whether a request is one that waits, and is no call.
fn may_wait(request: ThreadRequest) -> bool
    ensures { result ≡ is_wait (request_of request) }
{
    matches!(
        request,
        ThreadRequest::Joins { .. } | ThreadRequest::Sleeps(_) | ThreadRequest::Parks(_)
    )
}

/// The step of a thread that is parked, asleep or waits for the end of another, and may step. Its top frame is at this instruction.
pub fn finish_wait<W: ThreadWorld>(
    alloc: Global,
    world: &W,
    cache: &mut InvocationCache,
    state: &mut ProgramState,
    mounted: &mut Mounted,
    instr: &Instr,
    resolution: &Resolution,
) -> Result<(), NoMemory>
    requires frame { 0 < length mounted.old.stack.frames }
    requires at { StandsAt (W.world world.now)
        (record { instr = instr.now; resolution = resolution.now }) mounted.old.stack.frames }
    requires operands { FindsOperands (W.world world.now) resolution.now (row instr.now.op)
        (operands mounted.old) }
    requires natives { FindsNatives (W.world world.now) resolution.now (row instr.now.op)
        state.old.memory.natives.heap mounted.old }
    requires selected { AreSelected (W.world world.now) cache.old }
    ensures steps { OnOk result ((phase : Phase) → StepsTo (W.world world.now)
        (OthersStay mounted.old.thread) phase mounted.old.thread
        state.old mounted.old.stack.frames state.new mounted.new.stack.frames) }
    ensures monitors { state.new.monitors ≡ state.old.monitors }
    ensures thread { OnOk result (mounted.new.thread ≡ mounted.old.thread) }
    ensures cache { AreSelected (W.world world.now) cache.new }
{
    let pending = ask_again(alloc, world, cache, state, mounted, instr, resolution)?;
    if !may_wait(pending.request) {
        return Err(NoMemory);
    }
    let t = mounted.thread();
    let interrupted = end_wait(state, t)?;
    if interrupted {
        return throw(world, state, t, Exception::InterruptedException);
    }
    conclude_reply(world, state, mounted, pending, Reply::Goes)
}
