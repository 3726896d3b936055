//! What a reply makes of the thread that asked.

ghost use Rattle.std.specs.Prelude.{◌≡◌, Some, OnOk};
ghost use Rattle.ref_model.specs.Throwing as throwing;
ghost use Rattle.ref_run.specs.GoingOn.{LeadsTo};
ghost use Rattle.ref_run.specs.Replies.{replied};
ghost use Rattle.ref_run.specs.States.{state_of};

use crate::going_on::{resume, resume_with};
use crate::reply::Reply;
use crate::state::{RefState, row_at, set_status};
use items::NoMemory;
use ref_model::Exception;
use std::alloc::Global;
use thread_steps::{MachineWorld, PendingRequest, raise};
use vthread_state::Status;

/// Thread t throws a new exception, whatever it is at.
pub(crate) fn throw<W: MachineWorld>(
    world: &W,
    state: &mut RefState,
    t: u32,
    exception: Exception,
) -> Result<(), NoMemory>
    ensures { OnOk result (throwing.raised (W.world world.now) (state_of state.old) t exception
        ≡ Some (state_of state.new)) }
{
    state.memory.status = row_at(state, t)?.thread().status;
    raise(world, &mut state.memory, exception)?;
    let status = state.memory.status;
    set_status(state, t, status);
    Ok(())
}

/// Gives a reply to thread t, whose instruction asked.
pub(crate) fn conclude<W: MachineWorld>(
    alloc: Global,
    world: &W,
    state: &mut RefState,
    t: u32,
    pending: PendingRequest,
    reply: Reply,
) -> Result<(), NoMemory>
    ensures { OnOk result (LeadsTo (λ r a. replied (W.world world.now) r t a reply) t pending
        (state_of state.old) (state_of state.new)) }
{
    match reply {
        Reply::Goes => resume(alloc, state, t, pending),
        Reply::Gives(value) => resume_with(alloc, state, t, pending, value),
        Reply::Throws(exception) => throw(world, state, t, exception),
        Reply::Waits(phase) => {
            set_status(state, t, Status::Live(phase));
            Ok(())
        }
    }
}
