//! Calls of synchronized methods (JVMS 2.11.10).

ghost use Rattle.std.specs.Prelude.{OnOk};
ghost use Rattle.ref_model.specs.Asking as asking;
ghost use Rattle.ref_model.specs.Requesting as requesting;
ghost use Rattle.ref_run.specs.GoingOn.{CallsTo};
ghost use Rattle.ref_run.specs.States.{state_of};

use crate::going_on::go_into;
use crate::state::{RefState, enter, may_take, set_status};
use invocation::SynchronizedCall;
use items::NoMemory;
use std::alloc::Global;
use vthread_state::{Phase, Status};

/// Calls a synchronized method: the thread takes its monitor and goes into it, or waits to enter the monitor, at its call.
pub(crate) fn call_method(
    alloc: Global,
    state: &mut RefState,
    t: u32,
    call: SynchronizedCall,
) -> Result<(), NoMemory>
    ensures { OnOk result (CallsTo
        (λ r a g. requesting.taken_or_waits r t call.monitor (λ q. asking.goes_into q t a g))
        t call (state_of state.old) (state_of state.new)) }
{
    if !may_take(state, t, call.monitor) {
        set_status(state, t, Status::Live(Phase::Entering(call.monitor)));
        return Ok(());
    }
    enter(state, t, call.monitor)?;
    go_into(alloc, state, t, call)
}

/// Goes into the method that a thread waited to begin, and has its monitor.
pub(crate) fn finish_call(
    alloc: Global,
    state: &mut RefState,
    t: u32,
    call: SynchronizedCall,
) -> Result<(), NoMemory>
    ensures { OnOk result (CallsTo (λ r a g. asking.goes_into (asking.with_run r t) t a g) t call
        (state_of state.old) (state_of state.new)) }
{
    set_status(state, t, Status::Live(Phase::Run));
    go_into(alloc, state, t, call)
}
