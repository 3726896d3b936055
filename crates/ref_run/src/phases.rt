//! The step of a thread, by its phase.

ghost use Rattle.std.specs.Prelude.{◌≡◌, List, Some, OnOk};
ghost use Rattle.vthread_state.specs.declared.phase.Phase.TheVariants as phases;
ghost use Rattle.state_model.specs.Frames.{Frame};
ghost use Rattle.frame_soundness.specs.TypedStates.{AreOfPhase, IsTypedState};
ghost use Rattle.invocation.specs.InvocationCache.{AreSelected};
ghost use Rattle.ref_model.specs.Asking.{thrown_interrupted, with_run};
ghost use Rattle.ref_model.specs.LocalRows.{row};
ghost use Rattle.ref_model.specs.Requests.{request_of};
ghost use Rattle.ref_model.specs.Resuming as resuming;
ghost use Rattle.ref_model.specs.Step as steps;
ghost use Rattle.ref_run.specs.GoingOn.{LeadsTo};
ghost use Rattle.ref_run.specs.States.{frames_of, state_of};
ghost use Rattle.operand_soundness.specs.Ready.{IsReady};
ghost use Rattle.ref_run.specs.Steps.{Acts, HasTyped};

use crate::asking::{gives_back, is_first_entry};
use crate::calling::{call_method, finish_call};
use crate::fault::Fault;
use crate::going_on::resume;
use crate::instructions::run_instruction;
use crate::owners::Owner;
use crate::replies::throw;
use crate::requests::make_request;
use crate::returning::return_method;
use crate::state::{
    RefState, enter, is_interrupted, set_interrupted, set_owner, set_permit, set_status,
};
use crate::throwing::throwing_step;
use invocation::InvocationCache;
use items::NoMemory;
use ref_model::Exception;
use startup::ReadyProgram;
use std::alloc::Global;
use thread_steps::{PendingRequest, Progress};
use vthread_state::{Phase, Status, Wake};

// The step of a thread that runs.
fn running_step(
    alloc: Global,
    program: &ReadyProgram,
    cache: &mut InvocationCache,
    state: &mut RefState,
    t: u32,
) -> Result<(), Fault>
    requires ready { IsReady program.now }
    requires typed { HasTyped program.now (state_of state.old) t }
    requires selected { AreSelected program.now cache.old }
    ensures step { Acts (λ frames. steps.row_or_event program.now (state_of state.old) t frames
        (row program.now frames)) (state_of state.old) t result state.new }
    ensures cache { AreSelected program.now cache.new }
{
    let progress = run_instruction(alloc, program, cache, state, t)?;
    match progress {
        Progress::Stepped => Ok(()),
        Progress::Asks(pending) => {
            make_request(alloc, program, state, t, program.run_method(), pending)
        }
        Progress::Calls(call) => Ok(call_method(alloc, state, t, call)?),
        Progress::Returns(back) => Ok(return_method(alloc, program, state, t, back)?),
    }
}

// ---- waits that are over

// What the instruction of a thread asked is finished. What gives something back never waits, and counts as memory run out.
fn finish_request(
    alloc: Global,
    state: &mut RefState,
    t: u32,
    pending: PendingRequest,
) -> Result<(), NoMemory>
    ensures { OnOk result (LeadsTo (λ r a. resuming.finished_asking (with_run r t) t a
        (request_of pending.request)) t pending (state_of state.old) (state_of state.new)) }
{
    if gives_back(pending.request) {
        return Err(NoMemory);
    }
    set_status(state, t, Status::Live(Phase::Run));
    resume(alloc, state, t, pending)
}

// The instruction of a thread whose wait is over is finished: it is looked at again. What asks nothing counts as memory run out.
fn finish(
    alloc: Global,
    program: &ReadyProgram,
    cache: &mut InvocationCache,
    state: &mut RefState,
    t: u32,
) -> Result<(), NoMemory>
    requires ready { IsReady program.now }
    requires typed { HasTyped program.now (state_of state.old) t }
    requires selected { AreSelected program.now cache.old }
    ensures step { OnOk result ((frames : List Frame)
        → frames_of (state_of state.old) t ≡ Some frames
        → resuming.resumed program.now (state_of state.old) t frames ≡ Some (state_of state.new)) }
    ensures cache { AreSelected program.now cache.new }
{
    let progress = run_instruction(alloc, program, cache, state, t)?;
    match progress {
        Progress::Asks(pending) => finish_request(alloc, state, t, pending),
        Progress::Calls(call) => finish_call(alloc, state, t, call),
        _ => Err(NoMemory),
    }
}

// A thread that was interrupted in its wait throws InterruptedException.
fn throw_interrupted(program: &ReadyProgram, state: &mut RefState, t: u32) -> Result<(), NoMemory>
    ensures { OnOk result (thrown_interrupted program.now (state_of state.old) t
        ≡ Some (state_of state.new)) }
{
    set_interrupted(state, t, false);
    throw(program, state, t, Exception::InterruptedException)
}

// The end of a sleep, or of the wait for the end of another thread.
fn finish_unless_interrupted(
    alloc: Global,
    program: &ReadyProgram,
    cache: &mut InvocationCache,
    state: &mut RefState,
    t: u32,
) -> Result<(), NoMemory>
    requires ready { IsReady program.now }
    requires typed { HasTyped program.now (state_of state.old) t }
    requires selected { AreSelected program.now cache.old }
    ensures step { OnOk result ((frames : List Frame)
        → frames_of (state_of state.old) t ≡ Some frames
        → resuming.resumed_or_thrown program.now (state_of state.old) t frames
        ≡ Some (state_of state.new)) }
    ensures cache { AreSelected program.now cache.new }
{
    if is_interrupted(state, t) {
        return throw_interrupted(program, state, t);
    }
    finish(alloc, program, cache, state, t)
}

// The end of a park: the permit is taken.
fn finish_park(
    alloc: Global,
    program: &ReadyProgram,
    cache: &mut InvocationCache,
    state: &mut RefState,
    t: u32,
) -> Result<(), NoMemory>
    requires ready { IsReady program.now }
    requires typed { HasTyped program.now (state_of state.old) t }
    requires selected { AreSelected program.now cache.old }
    ensures step { OnOk result ((frames : List Frame)
        → frames_of (state_of state.old) t ≡ Some frames
        → resuming.park_over program.now (state_of state.old) t frames
        ≡ Some (state_of state.new)) }
    ensures cache { AreSelected program.now cache.new }
{
    set_permit(state, t, false);
    finish(alloc, program, cache, state, t)
}

// ---- monitors that are taken

// A thread takes the monitor that it waited to enter.
fn finish_entry(
    alloc: Global,
    program: &ReadyProgram,
    cache: &mut InvocationCache,
    state: &mut RefState,
    t: u32,
    o: u32,
) -> Result<(), NoMemory>
    requires ready { IsReady program.now }
    requires typed { HasTyped program.now (state_of state.old) t }
    requires selected { AreSelected program.now cache.old }
    ensures step { OnOk result ((frames : List Frame)
        → frames_of (state_of state.old) t ≡ Some frames
        → resuming.entered_monitor program.now (state_of state.old) t o frames
        ≡ Some (state_of state.new)) }
    ensures cache { AreSelected program.now cache.new }
{
    enter(state, t, o)?;
    let first = is_first_entry(state, t, o)?;
    if first {
        set_status(state, t, Status::Live(Phase::Run));
        return Ok(());
    }
    finish(alloc, program, cache, state, t)
}

// A thread takes the monitor on which it waited.
fn finish_wait(
    alloc: Global,
    program: &ReadyProgram,
    cache: &mut InvocationCache,
    state: &mut RefState,
    t: u32,
    o: u32,
    count: u32,
    wake: Wake,
) -> Result<(), NoMemory>
    requires ready { IsReady program.now }
    requires typed { HasTyped program.now (state_of state.old) t }
    requires selected { AreSelected program.now cache.old }
    ensures step { OnOk result ((frames : List Frame)
        → frames_of (state_of state.old) t ≡ Some frames
        → resuming.reentered program.now (state_of state.old) t o count wake frames
        ≡ Some (state_of state.new)) }
    ensures cache { AreSelected program.now cache.new }
{
    set_owner(state, o, Some(Owner { thread: t, count }))?;
    match wake {
        Wake::Interrupted => throw_interrupted(program, state, t),
        Wake::Notified | Wake::TimedOut => finish(alloc, program, cache, state, t),
    }
}

// ---- steps

// The step of a live thread that waited or waits.
fn waiting_step(
    alloc: Global,
    program: &ReadyProgram,
    cache: &mut InvocationCache,
    state: &mut RefState,
    t: u32,
    phase: Phase,
) -> Result<(), Fault>
    requires ready { IsReady program.now }
    requires typed { HasTyped program.now (state_of state.old) t }
    requires selected { AreSelected program.now cache.old }
    ensures step { Acts (λ frames. steps.phase_step program.now (state_of state.old) t frames
        phase) (state_of state.old) t result state.new }
    ensures cache { AreSelected program.now cache.new }
{
    match phase {
        Phase::Run => running_step(alloc, program, cache, state, t),
        Phase::Entering(o) => Ok(finish_entry(alloc, program, cache, state, t, o)?),
        Phase::Reenter {
            monitor,
            count,
            wake,
        } => { Ok(finish_wait(alloc, program, cache, state, t, monitor, count, wake)?) }
        Phase::Parked(_) => Ok(finish_park(alloc, program, cache, state, t)?),
        Phase::Asleep(_) => Ok(finish_unless_interrupted(alloc, program, cache, state, t)?),
        Phase::Joining { .. } => Ok(finish_unless_interrupted(alloc, program, cache, state, t)?),
        Phase::Waiting { .. } => Err(Fault::NoStep),
        Phase::Throwing(_) => Err(Fault::NoMemory),
    }
}

/// The step of a live thread in a phase.
pub(crate) fn phase_step(
    alloc: Global,
    program: &ReadyProgram,
    cache: &mut InvocationCache,
    state: &mut RefState,
    t: u32,
    phase: Phase,
) -> Result<(), Fault>
    requires ready { IsReady program.now }
    requires typed { (frames : List Frame) → frames_of (state_of state.old) t ≡ Some frames
        → AreOfPhase program.now frames phase }
    requires selected { AreSelected program.now cache.old }
    ensures step { Acts (λ frames. steps.phase_step program.now (state_of state.old) t frames
        phase) (state_of state.old) t result state.new }
    ensures cache { AreSelected program.now cache.new }
{
    match phase {
        Phase::Throwing(o) => Ok(throwing_step(alloc, program, state, t, o)?),
        _ => waiting_step(alloc, program, cache, state, t, phase),
    }
}
