//! How a program has ended, and which threads may step (JLS 12.8, 17).

ghost use Rattle.std.specs.Prelude.{◌≡◌, false, slice_get};
ghost use Rattle.std.specs.Option.{option_map_or};
ghost use Rattle.ref_model.specs.Enabled as enabled;
ghost use Rattle.ref_model.specs.Ending as spec;
ghost use Rattle.ref_model.specs.State as model;
ghost use Rattle.ref_run.specs.States.{state_of};

use crate::state::{RefState, is_free};
use crate::statuses::is_done;
use crate::thread_row::ThreadRow;
use crate::waiters::goes_on;
use ref_model::Ending;
use thread_calls::is_reached;
use vthread_state::{Phase, Status};

// How the program has ended by its threads, if it has.
fn threads_ending(state: &RefState) -> Option<Ending>
    ensures { result ≡ spec.threads_ending (state_of state.now) }
{
    if goes_on(state) {
        return None;
    }
    if state.memory.main_threw {
        Some(Ending::MainThrew)
    } else {
        Some(Ending::Ended)
    }
}

/// How the program has ended, if it has.
pub(crate) fn ending(state: &RefState) -> Option<Ending>
    ensures { result ≡ spec.ending (state_of state.now) }
{
    match state.memory.natives.exited {
        Some(status) => Some(Ending::Exited(status)),
        None => threads_ending(state),
    }
}

// Whether a thread has ended.
fn has_ended(state: &RefState, t: u32) -> bool
    ensures { result ≡ enabled.has_ended (state_of state.now) t }
{
    match state.threads.get(t as usize) {
        Some(row) => is_done(row.thread().status),
        None => false,
    }
}

// Whether a live thread in a phase goes on.
fn can_go_on(state: &RefState, row: &ThreadRow, phase: Phase) -> bool
    ensures { result ≡ enabled.can_go_on (state_of state.now) row.now phase }
{
    match phase {
        Phase::Run | Phase::Throwing(_) => true,
        Phase::Entering(o) => is_free(state, o),
        Phase::Waiting { .. } => false,
        Phase::Reenter { monitor, .. } => is_free(state, monitor),
        Phase::Parked(deadline) => {
            row.permit() || (row.interrupted() || is_reached(state.time, deadline))
        }
        Phase::Asleep(deadline) => row.interrupted() || is_reached(state.time, Some(deadline)),
        Phase::Joining { target, deadline } => {
            has_ended(state, target) || (row.interrupted() || is_reached(state.time, deadline))
        }
    }
}

// Whether a thread goes on.
fn is_ready(state: &RefState, row: &ThreadRow, status: Status) -> bool
    ensures { result ≡ enabled.is_ready (state_of state.now) row.now status }
{
    match status {
        Status::Live(phase) => can_go_on(state, row, phase),
        Status::New | Status::Done => false,
    }
}

// The same of the thread with a number.
fn is_ready_at(state: &RefState, t: u32) -> bool
    ensures { result ≡ option_map_or
        (λ (x : model.JavaThread). enabled.is_ready (state_of state.now) x x.thread.status)
        (slice_get (state_of state.now).threads t) false }
{
    match state.threads.get(t as usize) {
        Some(row) => is_ready(state, row, row.thread().status),
        None => false,
    }
}

/// Whether a thread may step: the program hasn't ended, and the thread doesn't wait.
pub(crate) fn is_enabled(state: &RefState, t: u32) -> bool
    ensures { result ≡ enabled.enabled (state_of state.now) t }
{
    ending(state).is_none() && is_ready_at(state, t)
}
