//! The state of a replay, and the changes of it that the definitions have.

ghost use Rattle.std.specs.Prelude.{◌≡◌, ◌<◌, ◌++◌, ◌∷◌, [], ℕ, Some, IfOk, IsSome, OnOk, length, map, slice_get, slice_set};
ghost use Rattle.vthread_state.specs.Threads.{phase_of as phase_of_status};
ghost use Rattle.ref_model.specs.Enabled as enabled;
ghost use Rattle.ref_model.specs.Ending as endings;
ghost use Rattle.ref_model.specs.Monitors as monitors;
ghost use Rattle.ref_model.specs.Requesting as requesting;
ghost use Rattle.ref_model.specs.State as model;
ghost use Rattle.ref_model.specs.Waiting as waiting;
ghost use Rattle.ref_run.specs.Owners.{owner_of};
ghost use Rattle.ref_run.specs.States.{phase_of, state_of, status_of};

use crate::endings::ending;
use crate::owners::{
    Owner, entered_once, find, is_open_to, is_owner, left_once, put, times_entered,
};
use crate::thread_row::ThreadRow;
use items::NoMemory;
use ref_model::Ending;
use std::collections::HashMap;
use thread_steps::Parts;
use vthread_state::{Phase, Status, Wake};

/// The state of a program that is run again: all of it lies here, each thread with its whole stack.
#[derive(Drop)]
pub struct RefState {
    /// The heap, the output and the static fields. The status in it counts for nothing between steps.
    pub(crate) memory: Parts,
    /// The threads by number.
    pub(crate) threads: Vec<ThreadRow>,
    /// The owner of each monitor that has one.
    pub(crate) owners: HashMap<u32, Owner>,
    /// How many threads there may be.
    pub(crate) most_threads: u32,
    /// How many platform threads were made without a name.
    pub(crate) unnamed: u32,
    /// The time in nanoseconds.
    pub(crate) time: u64,
}

impl RefState {
    /// What the program wrote to its output.
    pub fn out(&self) -> &[u8]
        ensures { result.now ≡ (state_of self.now).memory.out }
    {
        self.memory.natives.out.as_slice()
    }

    /// What the program wrote to its error output.
    pub fn err(&self) -> &[u8]
        ensures { result.now ≡ (state_of self.now).memory.err }
    {
        self.memory.natives.err.as_slice()
    }

    /// How the program has ended, if it has.
    pub fn ending(&self) -> Option<Ending>
        ensures { result ≡ endings.ending (state_of self.now) }
    {
        ending(self)
    }

    /// How many threads were made.
    pub fn threads(&self) -> usize
        ensures { result ≡ length (state_of self.now).threads }
    {
        self.threads.len()
    }

    /// How far a thread is.
    pub fn status(&self, t: u32) -> Status
        requires { t < length (state_of self.now).threads }
        ensures { status_of (state_of self.now) t ≡ Some result }
    {
        self.threads[t as usize].thread().status
    }

    /// The phase of a live thread.
    pub fn phase(&self, t: u32) -> Phase
        requires { IsSome (phase_of (state_of self.now) t) }
        ensures { phase_of (state_of self.now) t ≡ Some result }
    {
        match self.threads.get(t as usize) {
            Some(row) => phase_in(row.thread().status),
            None => unreachable!(),
        }
    }
}

// The phase of a live thread with this status.
fn phase_in(status: Status) -> Phase
    requires { IsSome (phase_of_status status) }
    ensures { phase_of_status status ≡ Some result }
{
    match status {
        Status::Live(phase) => phase,
        Status::New | Status::Done => unreachable!(),
    }
}

// ---- threads

/// A thread. One that isn't there counts as memory run out.
pub(crate) fn row_at(state: &RefState, t: u32) -> Result<&ThreadRow, NoMemory>
    ensures { IfOk result (λ row. slice_get (state_of state.now).threads t ≡ Some row.now) }
{
    state.threads.get(t as usize).ok_or(NoMemory)
}

/// Whether a thread's permit is there.
pub(crate) fn has_permit(state: &RefState, t: u32) -> bool
    ensures { result ≡ model.has_permit (state_of state.now) t }
{
    match state.threads.get(t as usize) {
        Some(row) => row.permit(),
        None => false,
    }
}

/// Whether a thread's interrupt status is set.
pub(crate) fn is_interrupted(state: &RefState, t: u32) -> bool
    ensures { result ≡ model.is_interrupted (state_of state.now) t }
{
    match state.threads.get(t as usize) {
        Some(row) => row.interrupted(),
        None => false,
    }
}

/// Whether a thread waits to be notified on a monitor.
pub(crate) fn is_waiting_on(state: &RefState, o: u32, t: u32) -> bool
    ensures { result ≡ waiting.is_waiting_on (state_of state.now) o t }
{
    match state.threads.get(t as usize) {
        Some(row) => row.waits_on(o),
        None => false,
    }
}

/// A thread has this status now.
pub(crate) fn set_status(state: &mut RefState, t: u32, status: Status)
    ensures { state_of state.new ≡ model.with_status (state_of state.old) t status }
{
    if (t as usize) < state.threads.len() {
        let row = &mut state.threads[t as usize];
        row.set_status(status);
    }
}

/// A thread has a permit now, or none.
pub(crate) fn set_permit(state: &mut RefState, t: u32, permit: bool)
    ensures { state_of state.new ≡ model.with_permit (state_of state.old) t permit }
{
    if (t as usize) < state.threads.len() {
        let row = &mut state.threads[t as usize];
        row.set_permit(permit);
    }
}

/// A thread has this interrupt status now.
pub(crate) fn set_interrupted(state: &mut RefState, t: u32, interrupted: bool)
    ensures { state_of state.new ≡ model.with_interrupt (state_of state.old) t interrupted }
{
    if (t as usize) < state.threads.len() {
        let row = &mut state.threads[t as usize];
        row.set_interrupted(interrupted);
    }
}

/// A thread has this name now.
pub(crate) fn set_name(state: &mut RefState, t: u32, name: u32)
    ensures { state_of state.new
        ≡ model.with_thread (state_of state.old) t (requesting.with_name name) }
{
    if (t as usize) < state.threads.len() {
        let row = &mut state.threads[t as usize];
        row.set_name(name);
    }
}

/// A thread is a daemon now or none, where it isn't a virtual one.
pub(crate) fn set_daemon(state: &mut RefState, t: u32, daemon: bool)
    ensures { state_of state.new
        ≡ model.with_thread (state_of state.old) t (requesting.with_daemon daemon) }
{
    if (t as usize) < state.threads.len() {
        let row = &mut state.threads[t as usize];
        row.set_daemon(daemon);
    }
}

/// A thread is interrupted, where it is live.
pub(crate) fn interrupt(state: &mut RefState, t: u32)
    ensures { state_of state.new
        ≡ model.with_thread (state_of state.old) t requesting.thread_interrupted }
{
    if (t as usize) < state.threads.len() {
        let row = &mut state.threads[t as usize];
        row.interrupt();
    }
}

/// A thread is given a permit, where it is live.
pub(crate) fn unpark(state: &mut RefState, t: u32)
    ensures { state_of state.new
        ≡ model.with_thread (state_of state.old) t requesting.thread_unparked }
{
    if (t as usize) < state.threads.len() {
        let row = &mut state.threads[t as usize];
        row.unpark();
    }
}

/// The wait of a thread on a monitor ends with a notification.
pub(crate) fn notify(state: &mut RefState, t: u32)
    ensures { state_of state.new ≡ waiting.with_notified (state_of state.old) t }
{
    if (t as usize) < state.threads.len() {
        let row = &mut state.threads[t as usize];
        row.wake(Wake::Notified);
    }
}

// ---- monitors

/// The owner of a monitor.
pub(crate) fn owner(state: &RefState, o: u32) -> Option<Owner>
    ensures { owner_of result ≡ (state_of state.now).owners o }
{
    find(&state.owners, o)
}

/// Whether a thread owns a monitor.
pub(crate) fn owns(state: &RefState, t: u32, o: u32) -> bool
    ensures { result ≡ monitors.owns (state_of state.now) t o }
{
    is_owner(t, find(&state.owners, o))
}

/// Whether a thread may take a monitor.
pub(crate) fn may_take(state: &RefState, t: u32, o: u32) -> bool
    ensures { result ≡ monitors.may_take (state_of state.now) t o }
{
    is_open_to(t, find(&state.owners, o))
}

/// Whether nobody owns a monitor.
pub(crate) fn is_free(state: &RefState, o: u32) -> bool
    ensures { result ≡ enabled.is_free (state_of state.now) o }
{
    find(&state.owners, o).is_none()
}

/// A monitor has this owner now, or none.
pub(crate) fn set_owner(state: &mut RefState, o: u32, owner: Option<Owner>) -> Result<(), NoMemory>
    ensures { OnOk result (state_of state.new
        ≡ model.with_owner (state_of state.old) o (owner_of owner)) }
{
    put(&mut state.owners, o, owner)
}

/// A thread enters a monitor once more.
pub(crate) fn enter(state: &mut RefState, t: u32, o: u32) -> Result<(), NoMemory>
    ensures { OnOk result (state_of state.new ≡ monitors.with_entry (state_of state.old) t o) }
{
    let entered = entered_once(t, find(&state.owners, o))?;
    set_owner(state, o, Some(entered))
}

/// A monitor is left once.
pub(crate) fn leave(state: &mut RefState, o: u32) -> Result<(), NoMemory>
    ensures { OnOk result (state_of state.new ≡ monitors.with_exit (state_of state.old) o) }
{
    let left = left_once(find(&state.owners, o));
    set_owner(state, o, left)
}

/// How often the owner of a monitor has entered it.
pub(crate) fn count(state: &RefState, o: u32) -> u32
    ensures { result ≡ monitors.times_entered ((state_of state.now).owners o) }
{
    times_entered(find(&state.owners, o))
}
