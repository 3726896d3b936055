//! notify, in a step that picks a thread.

ghost use Rattle.ref_model.specs.Requesting as requesting;
ghost use Rattle.ref_model.specs.Requests.{request_of};
ghost use Rattle.ref_run.specs.GoingOn.{Makes};
ghost use Rattle.ref_run.specs.States.{state_of};

use crate::fault::Fault;
use crate::going_on::resume;
use crate::state::{RefState, is_waiting_on, notify, owns};
use ref_model::ThreadRequest;
use std::alloc::Global;
use thread_steps::PendingRequest;

// A notify on a monitor picks a thread that waits on it.
fn notify_one(
    alloc: Global,
    state: &mut RefState,
    t: u32,
    u: u32,
    o: u32,
    pending: PendingRequest,
) -> Result<(), Fault>
    ensures { Makes (λ r a. requesting.asked_with r t a u (request_of (ThreadRequest.Notifies o)))
        t pending (state_of state.old) result state.new }
{
    if !(owns(state, t, o) && is_waiting_on(state, o, u)) {
        return Err(Fault::NoStep);
    }
    notify(state, u);
    resume(alloc, state, t, pending)?;
    Ok(())
}

/// notify, in a step that picks a thread that waits. Every other request picks none.
pub(crate) fn notify_picked(
    alloc: Global,
    state: &mut RefState,
    t: u32,
    u: u32,
    pending: PendingRequest,
) -> Result<(), Fault>
    ensures { Makes (λ r a. requesting.asked_with r t a u (request_of pending.request)) t pending
        (state_of state.old) result state.new }
{
    match pending.request {
        ThreadRequest::Notifies(o) => notify_one(alloc, state, t, u, o, pending),
        _ => Err(Fault::NoStep),
    }
}
