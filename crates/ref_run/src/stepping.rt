//! One step of a thread.

ghost use Rattle.std.specs.Prelude.{◌≡◌, ℕ, OnOk};
ghost use Rattle.frame_soundness.specs.TypedStates.{IsTypedState};
ghost use Rattle.invocation.specs.InvocationCache.{AreSelected};
ghost use Rattle.ref_model.specs.Step as spec;
ghost use Rattle.ref_run.specs.GoingOn.{Comes};
ghost use Rattle.ref_run.specs.States.{state_of};
ghost use Rattle.operand_soundness.specs.Ready.{IsReady};
ghost use Rattle.ref_run.specs.Steps.{is_run_phase, is_running_status, stepped};

use crate::endings::is_enabled;
use crate::fault::Fault;
use crate::instructions::run_instruction;
use crate::phases::phase_step;
use crate::picks::notify_picked;
use crate::state::{RefState, row_at};
use invocation::InvocationCache;
use startup::ReadyProgram;
use std::alloc::Global;
use step_soundness::steps_keep;
use thread_steps::Progress;
use vthread_state::{Phase, Status};

// A step of a thread that picks none, where the program goes on.
fn thread_step(
    alloc: Global,
    program: &ReadyProgram,
    cache: &mut InvocationCache,
    state: &mut RefState,
    t: u32,
) -> Result<(), Fault>
    requires ready { IsReady program.now }
    requires typed { IsTypedState program.now (state_of state.old) }
    requires selected { AreSelected program.now cache.old }
    ensures step { Comes (spec.thread_step program.now (state_of state.old) t) result state.new }
    ensures cache { AreSelected program.now cache.new }
{
    let status = row_at(state, t)?.thread().status;
    match status {
        Status::Live(phase) => phase_step(alloc, program, cache, state, t, phase),
        Status::New | Status::Done => Err(Fault::NoStep),
    }
}

/// Whether a thread with this status runs.
pub(crate) fn is_running(status: Status) -> bool
    ensures { result ≡ is_running_status status }
{
    match status {
        Status::Live(phase) => is_run(phase),
        Status::New | Status::Done => false,
    }
}

fn is_run(phase: Phase) -> bool
    ensures { result ≡ is_run_phase phase }
{
    matches!(phase, Phase::Run)
}

// A step of a thread that picks one, where the program goes on.
fn picking_step(
    alloc: Global,
    program: &ReadyProgram,
    cache: &mut InvocationCache,
    state: &mut RefState,
    t: u32,
    u: u32,
) -> Result<(), Fault>
    requires ready { IsReady program.now }
    requires typed { IsTypedState program.now (state_of state.old) }
    requires selected { AreSelected program.now cache.old }
    ensures step { Comes (spec.picking_step program.now (state_of state.old) t u) result state.new }
    ensures cache { AreSelected program.now cache.new }
{
    if !is_running(row_at(state, t)?.thread().status) {
        return Err(Fault::NoStep);
    }
    let progress = run_instruction(alloc, program, cache, state, t)?;
    match progress {
        Progress::Asks(pending) => notify_picked(alloc, state, t, u, pending),
        Progress::Stepped => Err(Fault::NoStep),
        Progress::Calls(_) => Err(Fault::NoStep),
        Progress::Returns(_) => Err(Fault::NoStep),
    }
}

// A step of a thread, where the program goes on.
fn make_step(
    alloc: Global,
    program: &ReadyProgram,
    cache: &mut InvocationCache,
    state: &mut RefState,
    t: u32,
    pick: Option<u32>,
) -> Result<(), Fault>
    requires ready { IsReady program.now }
    requires typed { IsTypedState program.now (state_of state.old) }
    requires selected { AreSelected program.now cache.old }
    ensures step { Comes (stepped program.now (state_of state.old) t pick) result state.new }
    ensures cache { AreSelected program.now cache.new }
{
    if !is_enabled(state, t) {
        return Err(Fault::NoStep);
    }
    match pick {
        Some(u) => picking_step(alloc, program, cache, state, t, u),
        None => thread_step(alloc, program, cache, state, t),
    }
}

/// A step of a thread. The state keeps to the typing.
pub(crate) fn step(
    alloc: Global,
    program: &ReadyProgram,
    cache: &mut InvocationCache,
    state: &mut RefState,
    t: u32,
    pick: Option<u32>,
) -> Result<(), Fault>
    requires ready { IsReady program.now }
    requires typed { IsTypedState program.now (state_of state.old) }
    requires selected { AreSelected program.now cache.old }
    ensures step { Comes (stepped program.now (state_of state.old) t pick) result state.new }
    ensures typed { OnOk result (IsTypedState program.now (state_of state.new)) }
    ensures cache { AreSelected program.now cache.new }
{
    steps_keep();
    make_step(alloc, program, cache, state, t, pick)
}
