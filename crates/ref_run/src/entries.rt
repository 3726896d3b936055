//! The entries of a history.

ghost use Rattle.std.specs.Prelude.{◌≡◌, ◌<◌, ◌≤◌, ℕ, None, Some, IfOk, OnOk};
ghost use Rattle.frame_soundness.specs.TypedStates.{IsTypedState};
ghost use Rattle.invocation.specs.InvocationCache.{AreSelected};
ghost use Rattle.interp_local.specs.Stops as stops;
ghost use Rattle.ref_model.specs.Waiting.{at_time};
ghost use Rattle.ref_run.specs.GoingOn.{Comes};
ghost use Rattle.ref_run.specs.States.{state_of};
ghost use Rattle.operand_soundness.specs.Ready.{IsReady};
ghost use Rattle.ref_run.specs.Steps.{IsAdvance, entry_after, made_entry, made_steps};

use crate::endings::ending;
use crate::fault::Fault;
use crate::state::{RefState, row_at};
use crate::stepping::{is_running, step};
use crate::taking::{put_frames, take_frames};
use crate::waiters::pass_time;
use history::What;
use interp_local::{Local, run_local};
use invocation::InvocationCache;
use items::NoMemory;
use ref_model::local_steps_stay_in_their_frames;
use startup::ReadyProgram;
use std::alloc::Global;
use step_soundness::{threads_keep, time_keeps};

// How many instructions a run of local ones made.
fn steps_of(local: Local) -> u32
    ensures { result ≡ stops.steps_of local }
{
    match local {
        Local::Need { steps } | Local::Slice { steps } => steps,
    }
}

// Runs instructions of a thread that stay in its top frame, at most so many: how many there were. There is none where the thread doesn't
// run, or the program has ended.
fn run_ahead(
    alloc: Global,
    program: &ReadyProgram,
    state: &mut RefState,
    t: u32,
    most: u32,
) -> Result<u32, NoMemory>
    requires typed { IsTypedState program.now (state_of state.old) }
    ensures few { IfOk result (λ n. n ≤ most) }
    ensures steps { IfOk result (λ n. made_steps program.now n (state_of state.old) t
        ≡ Some (state_of state.new)) }
    ensures typed { OnOk result (IsTypedState program.now (state_of state.new)) }
{
    local_steps_stay_in_their_frames();
    threads_keep();
    if ending(state).is_some() || !is_running(row_at(state, t)?.thread().status) {
        return Ok(0);
    }
    let mut mounted = take_frames(alloc, state, t)?;
    let local = run_local(program.prepared(), &mut mounted, most);
    put_frames(state, t, mounted);
    Ok(steps_of(local))
}

// Makes at least one step of a thread, and at most so many, none of which picks a thread: how many there were.
fn advance(
    alloc: Global,
    program: &ReadyProgram,
    cache: &mut InvocationCache,
    state: &mut RefState,
    t: u32,
    most: u32,
) -> Result<u32, Fault>
    requires some { 0 < most }
    requires ready { IsReady program.now }
    requires typed { IsTypedState program.now (state_of state.old) }
    requires selected { AreSelected program.now cache.old }
    ensures steps { IsAdvance program.now (state_of state.old) t most result state.new }
    ensures typed { OnOk result (IsTypedState program.now (state_of state.new)) }
    ensures cache { AreSelected program.now cache.new }
{
    let local = run_ahead(alloc, program, state, t, most)?;
    if local > 0 {
        return Ok(local);
    }
    match step(alloc, program, cache, state, t, None) {
        Ok(()) => Ok(1),
        Err(fault) => Err(fault),
    }
}

// Makes so many steps of a thread, none of which picks a thread.
fn make_steps(
    alloc: Global,
    program: &ReadyProgram,
    cache: &mut InvocationCache,
    state: &mut RefState,
    t: u32,
    count: u32,
) -> Result<(), Fault>
    requires ready { IsReady program.now }
    requires typed { IsTypedState program.now (state_of state.old) }
    requires selected { AreSelected program.now cache.old }
    ensures steps { Comes (made_steps program.now count (state_of state.old) t) result state.new }
    ensures typed { OnOk result (IsTypedState program.now (state_of state.new)) }
    ensures cache { AreSelected program.now cache.new }
{
    let mut made = 0;
    while made < count {
        match advance(alloc, program, cache, state, t, count - made) {
            Ok(steps) => made += steps,
            Err(fault) => return Err(fault),
        }
    }
    Ok(())
}

// Makes the steps of an entry that picks no thread, of which there is one at least.
fn make_unpicked(
    alloc: Global,
    program: &ReadyProgram,
    cache: &mut InvocationCache,
    state: &mut RefState,
    t: u32,
    steps: u32,
) -> Result<(), Fault>
    requires ready { IsReady program.now }
    requires typed { IsTypedState program.now (state_of state.old) }
    requires selected { AreSelected program.now cache.old }
    ensures entry { Comes (made_entry program.now (state_of state.old) t steps None)
        result state.new }
    ensures typed { OnOk result (IsTypedState program.now (state_of state.new)) }
    ensures cache { AreSelected program.now cache.new }
{
    if steps == 0 {
        return Err(Fault::NoStep);
    }
    make_steps(alloc, program, cache, state, t, steps)
}

// Makes the steps of an entry, of which there is one at least.
fn step_entry(
    alloc: Global,
    program: &ReadyProgram,
    cache: &mut InvocationCache,
    state: &mut RefState,
    t: u32,
    steps: u32,
    pick: Option<u32>,
) -> Result<(), Fault>
    requires ready { IsReady program.now }
    requires typed { IsTypedState program.now (state_of state.old) }
    requires selected { AreSelected program.now cache.old }
    ensures entry { Comes (made_entry program.now (state_of state.old) t steps pick)
        result state.new }
    ensures typed { OnOk result (IsTypedState program.now (state_of state.new)) }
    ensures cache { AreSelected program.now cache.new }
{
    let Some(u) = pick else {
        return make_unpicked(alloc, program, cache, state, t, steps);
    };
    if steps == 0 {
        return Err(Fault::NoStep);
    }
    match make_steps(alloc, program, cache, state, t, steps - 1) {
        Ok(()) => step(alloc, program, cache, state, t, Some(u)),
        Err(fault) => Err(fault),
    }
}

// Lets time go on, and never back.
fn tick(program: &ReadyProgram, state: &mut RefState, now: u64) -> Result<(), Fault>
    requires typed { IsTypedState program.now (state_of state.old) }
    ensures entry { Comes (at_time (state_of state.old) now) result state.new }
    ensures typed { OnOk result (IsTypedState program.now (state_of state.new)) }
{
    time_keeps();
    let _ = program;
    if now <= state.time {
        return Err(Fault::NoStep);
    }
    pass_time(state, now);
    Ok(())
}

/// Makes an entry. After an error the state is of no use.
pub(crate) fn make_entry(
    alloc: Global,
    program: &ReadyProgram,
    cache: &mut InvocationCache,
    state: &mut RefState,
    what: What,
) -> Result<(), Fault>
    requires ready { IsReady program.now }
    requires typed { IsTypedState program.now (state_of state.old) }
    requires selected { AreSelected program.now cache.old }
    ensures entry { Comes (entry_after program.now (state_of state.old) what) result state.new }
    ensures typed { OnOk result (IsTypedState program.now (state_of state.new)) }
    ensures cache { AreSelected program.now cache.new }
{
    match what {
        What::Step {
            thread,
            steps,
            pick,
        } => step_entry(alloc, program, cache, state, thread, steps, pick),
        What::Clock(now) => tick(program, state, now),
        What::Mount(_) | What::Unmount(_) => Ok(()),
    }
}
