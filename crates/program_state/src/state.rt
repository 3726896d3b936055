//! The state of a program with many threads, and what its table has of one of them.

ghost use Rattle.std.specs.Prelude.{◌≡◌, IsSome, IsTrue, Some, IfOk, OnOk};
ghost use Rattle.vthread_state.specs.declared.phase.Phase.TheVariants.{Run, Throwing};
ghost use Rattle.vthread_state.specs.declared.thread.Status.TheVariants.{Live};
ghost use Rattle.vthread_state.specs.Threads.{phase_at, status_at, thread_at};
ghost use Rattle.program_state.specs.Settling.{IsSettled, IsStatusSet, is_run_phase, is_running_status, throws_in, throws_status};

use continuation::Frozen;
use items::NoMemory;
use monitors::Monitors;
use sleep_wheel::{Key, Wheel};
use thread_steps::Parts;
use vthread_state::{Phase, Status, Thread, ThreadTable};
use wakes::Wakes;

/// The state of a program, but for the frames of mounted threads, which their carriers have.
#[derive(Drop)]
pub struct ProgramState {
    /// The heap, the output and the static fields. Between steps its status is that of a thread that runs.
    pub memory: Parts,
    pub threads: ThreadTable,
    /// The frames of each live thread that isn't mounted, by the thread's number.
    pub frozen: Vec<Option<Frozen>>,
    /// The permit and the interrupt status of each thread.
    pub wakes: Wakes,
    /// The owners of monitors, and the threads that wait to take one or to be notified.
    pub monitors: Monitors,
    /// The live threads with a deadline that is greater than the time.
    pub wheel: Wheel,
    /// The key on the wheel of each thread that is on it, by the thread's number.
    pub keys: Vec<Option<Key>>,
    /// The time in nanoseconds, which begins at 0.
    pub time: u64,
    /// How many threads there may be, as in the table.
    pub most_threads: u32,
    /// How many platform threads were made without a name.
    pub unnamed: u32,
}

/// A thread as it is. A thread that isn't there counts as memory run out.
pub fn row_at(threads: &ThreadTable, t: u32) -> Result<Thread, NoMemory>
    ensures { IfOk result (λ row. thread_at threads.now t ≡ Some row) }
{
    if t >= threads.count() {
        return Err(NoMemory);
    }
    Ok(threads.row(t))
}

// A live thread runs or throws. Any other phase counts as memory run out.
fn set_phase(threads: &mut ThreadTable, t: u32, phase: Phase) -> Result<(), NoMemory>
    requires { IsSome (phase_at threads.old t) }
    ensures { OnOk result (IsStatusSet t (Live phase) threads.old threads.new) }
{
    match phase {
        Phase::Run => {
            threads.set_phase(t, Phase::Run);
            Ok(())
        }
        Phase::Throwing(o) => {
            threads.set_phase(t, Phase::Throwing(o));
            Ok(())
        }
        _ => Err(NoMemory),
    }
}

/// Sets the status of a live thread, after which it runs, throws or is done. Any other status counts as memory run out, and so does a
/// thread that isn't live.
pub(crate) fn set_status(threads: &mut ThreadTable, t: u32, status: Status) -> Result<(), NoMemory>
    ensures { OnOk result (IsStatusSet t status threads.old threads.new) }
{
    if t >= threads.count() || !threads.is_alive(t) {
        return Err(NoMemory);
    }
    match status {
        Status::Live(phase) => set_phase(threads, t, phase),
        Status::Done => {
            threads.finish(t);
            Ok(())
        }
        Status::New => Err(NoMemory),
    }
}

/// Writes the status that a step left in the memory to the table, where it is that of a thread that runs, throws or is done.
pub fn settle_status(state: &mut ProgramState, t: u32) -> Result<(), NoMemory>
    ensures settled { OnOk result (IsSettled t state.old state.new) }
    ensures monitors { state.new.monitors ≡ state.old.monitors }
{
    set_status(&mut state.threads, t, state.memory.status)?;
    state.memory.status = Status::Live(Phase::Run);
    Ok(())
}

#[inline(always)]
fn is_run(phase: Phase) -> bool
    ensures { result ≡ is_run_phase phase }
{
    matches!(phase, Phase::Run)
}

// Whether a thread with this status runs.
#[inline(always)]
fn is_running(status: Status) -> bool
    ensures { result ≡ is_running_status status }
{
    match status {
        Status::Live(phase) => is_run(phase),
        Status::New | Status::Done => false,
    }
}

/// The same of a thread that ran before its step, where the table is written only if the status has changed: whether it runs still.
#[inline(always)]
pub(crate) fn settle_running(state: &mut ProgramState, t: u32) -> Result<bool, NoMemory>
    ensures settled { OnOk result (status_at state.old.threads t ≡ Some (Live Run)
        → IsSettled t state.old state.new) }
    ensures same { IfOk result (λ runs. IsTrue runs → state.new ≡ state.old) }
    ensures monitors { state.new.monitors ≡ state.old.monitors }
{
    if is_running(state.memory.status) {
        return Ok(true);
    }
    settle_status(state, t)?;
    Ok(false)
}

#[inline(always)]
fn throws_in(phase: Phase, o: u32) -> bool
    ensures { result ≡ throws_in o phase }
{
    match phase {
        Phase::Throwing(thrown) => thrown == o,
        _ => false,
    }
}

// Whether a thread with this status throws this object.
#[inline(always)]
fn throws(status: Status, o: u32) -> bool
    ensures { result ≡ throws_status o status }
{
    match status {
        Status::Live(phase) => throws_in(phase, o),
        Status::New | Status::Done => false,
    }
}

/// The same of a thread that threw this object before its step.
#[inline(always)]
pub(crate) fn settle_throwing(state: &mut ProgramState, t: u32, o: u32) -> Result<(), NoMemory>
    ensures settled { OnOk result (status_at state.old.threads t ≡ Some (Live (Throwing o))
        → IsSettled t state.old state.new) }
    ensures monitors { state.new.monitors ≡ state.old.monitors }
{
    if throws(state.memory.status, o) {
        state.memory.status = Status::Live(Phase::Run);
        return Ok(());
    }
    settle_status(state, t)
}
