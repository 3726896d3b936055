//! Returns from synchronized methods (JVMS 2.11.10).

ghost use Rattle.std.specs.Prelude.{◌≡◌, OnOk};
ghost use Rattle.ref_model.specs.Step as steps;
ghost use Rattle.ref_run.specs.GoingOn.{LeavesTo};
ghost use Rattle.ref_run.specs.States.{state_of};
ghost use Rattle.ref_run.specs.Steps.{HasResult};

use crate::replies::throw;
use crate::state::{RefState, leave, owns};
use crate::taking::{put_frames, take_frames};
use items::NoMemory;
use opcodes::ValueKind;
use ref_model::Exception;
use std::alloc::Global;
use thread_steps::{MachineWorld, MonitorReturn, return_unlocked};

// The top frame of a thread is left by a return, and holds no monitor any more.
fn return_frame<W: MachineWorld>(
    alloc: Global,
    world: &W,
    state: &mut RefState,
    t: u32,
    kind: Option<ValueKind>,
) -> Result<(), NoMemory>
    requires { HasResult kind (state_of state.old) t }
    ensures { OnOk result (LeavesTo
        (λ r f below. steps.frame_returned (W.world world.now) r t kind f below) t
        (state_of state.old) (state_of state.new)) }
{
    let mut mounted = take_frames(alloc, state, t)?;
    return_unlocked(world, &mut state.memory, &mut mounted, kind)?;
    put_frames(state, t, mounted);
    Ok(())
}

/// Returns from a frame that holds a monitor, which the thread leaves once. Where it doesn't own that it throws IllegalMonitorStateException, and
/// the frame stays.
pub(crate) fn return_method<W: MachineWorld>(
    alloc: Global,
    world: &W,
    state: &mut RefState,
    t: u32,
    back: MonitorReturn,
) -> Result<(), NoMemory>
    requires { HasResult back.kind (state_of state.old) t }
    ensures { OnOk result (LeavesTo
        (λ r f below. steps.monitor_returned (W.world world.now) r t back.kind f below
        back.monitor) t (state_of state.old) (state_of state.new)) }
{
    if !owns(state, t, back.monitor) {
        return throw(world, state, t, Exception::IllegalMonitorStateException);
    }
    leave(state, back.monitor)?;
    return_frame(alloc, world, state, t, back.kind)
}
