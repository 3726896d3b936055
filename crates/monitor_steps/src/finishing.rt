//! Threads that were in line for a monitor, and go on when they have it (JLS 17.1, 17.2).

ghost use Rattle.std.specs.Prelude.{◌≡◌, ◌<◌, ◌≤◌, Some, length, OnOk};
ghost use Rattle.instruction_rows.specs.Table.{row};
ghost use Rattle.vthread_state.specs.declared.phase.Phase.{Phase};
ghost use Rattle.monitors.specs.Monitors.{IsInLine, monitor_of};
ghost use Rattle.ref_model.specs.Operands.{FindsOperands};
ghost use Rattle.ref_model.specs.Requests.{request_of};
ghost use Rattle.heap_instructions.specs.Operands.{operands};
ghost use Rattle.invocation.specs.InvocationCache.{AreSelected};
ghost use Rattle.thread_steps.specs.Operands.{FindsNatives};
ghost use Rattle.program_state.specs.Monitors.{AreSeated, ListsMove};
ghost use Rattle.program_state.specs.Requests.{IsPending};
ghost use Rattle.program_state.specs.Running.{IsCallPending, IsProgress, StandsAt};
ghost use Rattle.program_state.specs.Steps.{PutsNobody, StepsTo};
ghost use Rattle.monitor_steps.specs.Entries.{StepsInLine, may_line_up};

use crate::line::{AfterEntry, Line, line_in, take_monitor};
use crate::throwing::throw;
use continuation::Mounted;
use invocation::{InvocationCache, SynchronizedCall, enter_synchronized};
use items::NoMemory;
use link_model::Resolution;
use opcodes::Instr;
use program_state::{ProgramState, ThreadWorld, go_on, live_phase, run_step, take_interrupt};
use ref_model::{Exception, ThreadRequest};
use std::alloc::Global;
use thread_steps::{PendingRequest, Progress};

// Whether a request is one that may wait for a monitor, and is no call.
fn may_line_up(request: ThreadRequest) -> bool
    ensures { result ≡ may_line_up (request_of request) }
{
    matches!(
        request,
        ThreadRequest::Enters(_) | ThreadRequest::WaitsOn { .. }
    )
}

// The thread takes the monitor that its instruction asked for, or that it waited on, and goes on with the next one. Any other request counts
// as memory run out.
fn resume_request<W: ThreadWorld>(
    world: &W,
    state: &mut ProgramState,
    mounted: &mut Mounted,
    line: Line,
    pending: PendingRequest,
) -> Result<(), NoMemory>
    requires asks { IsPending (W.world world.now) pending state.old.memory
        mounted.old.stack.frames }
    requires in_line { IsInLine mounted.old.thread (monitor_of state.old.monitors line.monitor) }
    requires resumes { line.then_goes ≡ AfterEntry.Resumes }
    ensures steps { OnOk result (StepsInLine (W.world world.now) line mounted.old.thread
        state.old mounted.old.stack.frames state.new mounted.new.stack.frames) }
    ensures lists { OnOk result (ListsMove state.old.monitors state.new.monitors) }
    ensures thread { mounted.new.thread ≡ mounted.old.thread }
{
    if !may_line_up(pending.request) {
        return Err(NoMemory);
    }
    take_monitor(state, mounted.thread(), line)?;
    mounted.operands_fit();
    go_on(mounted, pending);
    Ok(())
}

// The thread takes the monitor of the method that it calls, whose frame begins.
fn resume_call<W: ThreadWorld>(
    world: &W,
    state: &mut ProgramState,
    mounted: &mut Mounted,
    line: Line,
    call: SynchronizedCall,
) -> Result<(), NoMemory>
    requires calls { IsCallPending (W.world world.now) call state.old.memory
        mounted.old.stack.frames }
    requires in_line { IsInLine mounted.old.thread (monitor_of state.old.monitors line.monitor) }
    requires resumes { line.then_goes ≡ AfterEntry.Resumes }
    ensures steps { OnOk result (StepsInLine (W.world world.now) line mounted.old.thread
        state.old mounted.old.stack.frames state.new mounted.new.stack.frames) }
    ensures lists { OnOk result (ListsMove state.old.monitors state.new.monitors) }
    ensures thread { mounted.new.thread ≡ mounted.old.thread }
{
    take_monitor(state, mounted.thread(), line)?;
    enter_synchronized(call, mounted)
}

// The thread takes the monitor for which it was in line, and finishes its instruction, which is looked at again. What asks for no monitor
// counts as memory run out.
fn resume<W: ThreadWorld>(
    alloc: Global,
    world: &W,
    cache: &mut InvocationCache,
    state: &mut ProgramState,
    mounted: &mut Mounted,
    instr: &Instr,
    resolution: &Resolution,
    line: Line,
) -> Result<(), NoMemory>
    requires frame { 0 < length mounted.old.stack.frames }
    requires at { StandsAt (W.world world.now)
        (record { instr = instr.now; resolution = resolution.now }) mounted.old.stack.frames }
    requires operands { FindsOperands (W.world world.now) resolution.now (row instr.now.op)
        (operands mounted.old) }
    requires natives { FindsNatives (W.world world.now) resolution.now (row instr.now.op)
        state.old.memory.natives.heap mounted.old }
    requires selected { AreSelected (W.world world.now) cache.old }
    requires in_line { IsInLine mounted.old.thread (monitor_of state.old.monitors line.monitor) }
    requires resumes { line.then_goes ≡ AfterEntry.Resumes }
    ensures steps { OnOk result (StepsInLine (W.world world.now) line mounted.old.thread
        state.old mounted.old.stack.frames state.new mounted.new.stack.frames) }
    ensures lists { OnOk result (ListsMove state.old.monitors state.new.monitors) }
    ensures thread { OnOk result (mounted.new.thread ≡ mounted.old.thread) }
    ensures cache { AreSelected (W.world world.now) cache.new }
{
    let mut progress = Progress::Stepped;
    run_step(
        alloc,
        world,
        cache,
        state,
        mounted,
        &mut progress,
        instr,
        resolution,
    )?;
    match progress {
        Progress::Asks(pending) => resume_request(world, state, mounted, line, pending),
        Progress::Calls(call) => resume_call(world, state, mounted, line, call),
        _ => Err(NoMemory),
    }
}

// The thread takes the monitor on which it waited until an interrupt. Its interrupt status is cleared, and it throws InterruptedException.
fn throw_interrupted<W: ThreadWorld>(
    world: &W,
    state: &mut ProgramState,
    mounted: &Mounted,
    line: Line,
) -> Result<(), NoMemory>
    requires in_line { IsInLine mounted.now.thread (monitor_of state.old.monitors line.monitor) }
    requires throws { line.then_goes ≡ AfterEntry.Throws }
    ensures steps { OnOk result (StepsInLine (W.world world.now) line mounted.now.thread
        state.old mounted.now.stack.frames state.new mounted.now.stack.frames) }
    ensures lists { OnOk result (ListsMove state.old.monitors state.new.monitors) }
{
    let t = mounted.thread();
    take_monitor(state, t, line)?;
    take_interrupt(&mut state.wakes, t)?;
    throw(world, state, t, Exception::InterruptedException)
}

/// The step of a thread that is in line for a monitor which nobody owns: it takes that, and runs. Its top frame is at this instruction, which
/// it finishes, unless its first frame is only to begin, or an interrupt ended its wait.
pub fn finish_entry<W: ThreadWorld>(
    alloc: Global,
    world: &W,
    cache: &mut InvocationCache,
    state: &mut ProgramState,
    mounted: &mut Mounted,
    instr: &Instr,
    resolution: &Resolution,
) -> Result<(), NoMemory>
    requires frame { 0 < length mounted.old.stack.frames }
    requires at { StandsAt (W.world world.now)
        (record { instr = instr.now; resolution = resolution.now }) mounted.old.stack.frames }
    requires operands { FindsOperands (W.world world.now) resolution.now (row instr.now.op)
        (operands mounted.old) }
    requires natives { FindsNatives (W.world world.now) resolution.now (row instr.now.op)
        state.old.memory.natives.heap mounted.old }
    requires selected { AreSelected (W.world world.now) cache.old }
    requires seated { AreSeated state.old.monitors state.old.threads }
    ensures steps { OnOk result ((phase : Phase) → StepsTo (W.world world.now)
        (PutsNobody mounted.old.thread) phase mounted.old.thread
        state.old mounted.old.stack.frames state.new mounted.new.stack.frames) }
    ensures lists { OnOk result (ListsMove state.old.monitors state.new.monitors) }
    ensures thread { OnOk result (mounted.new.thread ≡ mounted.old.thread) }
    ensures cache { AreSelected (W.world world.now) cache.new }
{
    let t = mounted.thread();
    let phase = live_phase(&state.threads, t)?;
    let line = line_in(mounted, phase)?;
    match line.then_goes {
        AfterEntry::Begins => take_monitor(state, t, line),
        AfterEntry::Resumes => resume(alloc, world, cache, state, mounted, instr, resolution, line),
        AfterEntry::Throws => throw_interrupted(world, state, mounted, line),
    }
}
