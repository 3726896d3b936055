//! The step of a mounted thread, with what it does to the deque of its carrier.

ghost use Rattle.std.specs.Prelude.{◌≡◌, ◌<◌, ◌++◌, ◌∷◌, ◌||◌, [], ℕ, Bool, None, Ok, false, length, nat_lt, not, vec_capacity, IfOk, IsTrue, OnOk};
ghost use Rattle.vthread_state.specs.declared.phase.Phase.TheVariants.{Run};
ghost use Rattle.ref_model.specs.Ending.{ending as ending_of};
ghost use Rattle.ref_model.specs.Looks.{pins_of};
ghost use Rattle.ref_model.specs.State.{State};
ghost use Rattle.frame_soundness.specs.Typed.{Typed};
ghost use Rattle.interp_local.specs.Fetched.{IsTopAt};
ghost use Rattle.invocation.specs.InvocationCache.{AreSelected};
ghost use Rattle.thread_lists.specs.Lists.{count, total};
ghost use Rattle.program_state.specs.States.{IsState};
ghost use Rattle.machine.specs.AtHand.{AreTyped, HasNext, IsAt};
ghost use Rattle.machine.specs.Moves.{IsAsked, StaysIfReading, alone};
ghost use Rattle.machine.specs.Puts.{IsTouched};
ghost use Rattle.operand_soundness.specs.Ready.{IsReady};
ghost use Rattle.machine.specs.Steps.{Becomes, IsConcluded, IsEntered, IsPicking, IsTriedSo, MayBeMade, outcome_of, picked_by, told_of};
ghost use Rattle.machine.specs.declared.made.Attempt.TheVariants.{Made};
ghost use Rattle.machine.specs.declared.made.Others.TheVariants as moves;

use crate::after::After;
use crate::endings::may_step;
use crate::made::{Attempt, Move, Others, StepResult};
use crate::moves::{asked_move, has_stepped, other_move, running_move};
use crate::puts::{is_done, put_woken};
use continuation::Mounted;
use history::{Entry, What};
use interp_local::Fetched;
use invocation::{InvocationCache, is_pinned};
use items::NoMemory;
use program_state::{ProgramState, ending};
use ref_model::{Ending, Which};
use run_deques::Deques;
use startup::ReadyProgram;
use std::alloc::Global;
use thread_steps::Progress;

// What becomes of a thread that goes on or not after its step, where it would leave its carrier if it weren't pinned.
#[inline(never)]
fn outcome_of_pins(program: &ReadyProgram, mounted: &Mounted, goes_on: bool) -> StepResult
    ensures becomes { (yields : Bool) → IsTrue (yields || not goes_on)
        → told_of result ≡ Ok (Made (outcome_of false
        (nat_lt 0 (pins_of program.now mounted.now.stack.frames)) yields goes_on)) }
    ensures picks { picked_by result ≡ None }
{
    if !is_pinned(program, mounted) {
        return StepResult::Leaves;
    }
    if goes_on {
        StepResult::Goes
    } else {
        StepResult::Waits
    }
}

// What becomes of a thread after its step, which was a yield or not.
#[inline(always)]
fn outcome(
    program: &ReadyProgram,
    state: &ProgramState,
    mounted: &Mounted,
    t: u32,
    yields: bool,
) -> StepResult
    requires { t < length state.now.threads.threads }
    ensures becomes { IfOk (told_of result)
        (Becomes program.now state.now t mounted.now.stack.frames yields) }
    ensures picks { picked_by result ≡ None }
{
    if is_done(&state.threads, t) {
        return StepResult::Ends;
    }
    let goes_on = may_step(state, t);
    if goes_on && !yields {
        return StepResult::Goes;
    }
    outcome_of_pins(program, mounted, goes_on)
}

// What becomes of a thread whose step may have notified another one. One that doesn't go on after that counts as memory run out.
#[inline(always)]
fn picking(others: Others, became: StepResult) -> StepResult
    requires { picked_by became ≡ None }
    ensures { IfOk (told_of result) (IsPicking others became (picked_by result)) }
{
    match others {
        Others::Notifies(thread) => match became {
            StepResult::Goes => StepResult::Notifies(thread),
            _ => StepResult::LacksMemory,
        },
        _ => became,
    }
}

// Whom a step puts, and what becomes of its thread.
#[inline(always)]
fn conclude(
    alloc: Global,
    program: &ReadyProgram,
    state: &ProgramState,
    deques: &mut Deques,
    mounted: &Mounted,
    c: u32,
    t: u32,
    made: Move,
) -> StepResult
    requires thread { t < length state.now.threads.threads }
    requires touched { IsTouched made.others (length state.now.threads.threads) }
    requires carrier { c < length deques.old.lists }
    requires free { (u : ℕ) → made.others ≡ moves.Starts u
        → total (count u) deques.old.lists ≡ 0 }
    ensures { IfOk (told_of result) (IsConcluded program.now state.now t
        mounted.now.stack.frames made c deques.old deques.new (picked_by result)) }
{
    match put_woken(alloc, state, deques, c, t, made.others) {
        Ok(()) => picking(
            made.others,
            outcome(program, state, mounted, t, made.yields),
        ),
        Err(NoMemory) => StepResult::LacksMemory,
    }
}

// The end of a step that did nothing to other threads, and was no yield.
#[inline(never)]
fn end_step(
    alloc: Global,
    program: &ReadyProgram,
    state: &ProgramState,
    deques: &mut Deques,
    mounted: &Mounted,
    c: u32,
    t: u32,
) -> StepResult
    requires thread { t < length state.now.threads.threads }
    requires carrier { c < length deques.old.lists }
    ensures { IfOk (told_of result) (IsConcluded program.now state.now t
        mounted.now.stack.frames alone c deques.old deques.new (picked_by result)) }
{
    let made = Move {
        others: Others::Stay,
        yields: false,
    };
    conclude(alloc, program, state, deques, mounted, c, t, made)
}

// The step of a thread whose instruction asks this. One that reads the clock is made only where the time isn't less than `now`.
#[inline(never)]
fn asking_step(
    alloc: Global,
    program: &ReadyProgram,
    state: &mut ProgramState,
    deques: &mut Deques,
    mounted: &mut Mounted,
    c: u32,
    progress: Progress,
    now: u64,
) -> StepResult
    requires from { MayBeMade program.now state.old deques.old c mounted.old.thread
        mounted.old.stack.frames }
    requires runs { IsAt state.old mounted.old.thread Run }
    requires asked { IsAsked program.now progress state.old.memory mounted.old.stack.frames }
    ensures made { IsTriedSo program.now state.old deques.old c mounted.old now (told_of result)
        (picked_by result) state.new deques.new mounted.new.stack.frames }
    ensures thread { OnOk (told_of result) (mounted.new.thread ≡ mounted.old.thread) }
    ensures kept { IfOk (told_of result) (λ tried.
        StaysIfReading tried mounted.old mounted.new) }
{
    let t = mounted.thread();
    let Ok(tried) = asked_move(alloc, program, state, mounted, progress, now) else {
        return StepResult::LacksMemory;
    };
    match tried {
        Attempt::Made(made) => conclude(alloc, program, state, deques, mounted, c, t, made),
        Attempt::LacksThreads => StepResult::LacksThreads,
        Attempt::ReadsClock => StepResult::ReadsClock,
    }
}

// Whether the program goes on.
#[inline(always)]
fn goes_on(state: &ProgramState) -> bool
    ensures { IsTrue result → (r : State) (out : ℕ → Bool) → IsState state.now r out
        → ending_of r ≡ None }
{
    ending(state).is_none()
}

// The step of a thread that runs, at this instruction. One that reads the clock is made only where the time isn't less than `now`.
#[inline(always)]
fn running_step(
    alloc: Global,
    program: &ReadyProgram,
    cache: &mut InvocationCache,
    state: &mut ProgramState,
    deques: &mut Deques,
    mounted: &mut Mounted,
    c: u32,
    next: Fetched<'_>,
    now: u64,
) -> StepResult
    requires from { MayBeMade program.now state.old deques.old c mounted.old.thread
        mounted.old.stack.frames }
    requires ready { IsReady program.now }
    requires runs { IsAt state.old mounted.old.thread Run }
    requires typed { Typed program.now mounted.old.stack.frames }
    requires next { IsTopAt program.now mounted.old.stack.frames next }
    requires selected { AreSelected program.now cache.old }
    ensures made { IsTriedSo program.now state.old deques.old c mounted.old now (told_of result)
        (picked_by result) state.new deques.new mounted.new.stack.frames }
    ensures thread { OnOk (told_of result) (mounted.new.thread ≡ mounted.old.thread) }
    ensures kept { IfOk (told_of result) (λ tried.
        StaysIfReading tried mounted.old mounted.new) }
    ensures cache { AreSelected program.now cache.new }
{
    let t = mounted.thread();
    let mut progress = Progress::Stepped;
    let Ok(same) = running_move(alloc, program, cache, state, mounted, &mut progress, next) else {
        return StepResult::LacksMemory;
    };
    if !has_stepped(progress) {
        return asking_step(alloc, program, state, deques, mounted, c, progress, now);
    }
    if same && goes_on(state) {
        return StepResult::Runs;
    }
    end_step(alloc, program, state, deques, mounted, c, t)
}

// The step of a thread that doesn't run.
#[inline(never)]
fn other_step(
    alloc: Global,
    program: &ReadyProgram,
    cache: &mut InvocationCache,
    state: &mut ProgramState,
    deques: &mut Deques,
    mounted: &mut Mounted,
    c: u32,
) -> StepResult
    requires from { MayBeMade program.now state.old deques.old c mounted.old.thread
        mounted.old.stack.frames }
    requires ready { IsReady program.now }
    requires typed { AreTyped program.now state.old mounted.old.thread mounted.old.stack.frames }
    requires selected { AreSelected program.now cache.old }
    ensures made { (now : ℕ) → IsTriedSo program.now state.old deques.old c mounted.old now
        (told_of result) (picked_by result) state.new deques.new mounted.new.stack.frames }
    ensures thread { OnOk (told_of result) (mounted.new.thread ≡ mounted.old.thread) }
    ensures kept { IfOk (told_of result) (λ tried.
        StaysIfReading tried mounted.old mounted.new) }
    ensures cache { AreSelected program.now cache.new }
{
    let t = mounted.thread();
    let Ok(made) = other_move(alloc, program, cache, state, mounted) else {
        return StepResult::LacksMemory;
    };
    conclude(alloc, program, state, deques, mounted, c, t, made)
}

/// Makes the step of a thread that carrier c has mounted; where it runs `next` is its instruction. One that reads the clock is made only where
/// the time isn't less than `now`.
#[inline(always)]
pub(crate) fn make_step(
    alloc: Global,
    program: &ReadyProgram,
    cache: &mut InvocationCache,
    state: &mut ProgramState,
    deques: &mut Deques,
    mounted: &mut Mounted,
    c: u32,
    next: Option<Fetched<'_>>,
    now: u64,
) -> StepResult
    requires from { MayBeMade program.now state.old deques.old c mounted.old.thread
        mounted.old.stack.frames }
    requires ready { IsReady program.now }
    requires typed { AreTyped program.now state.old mounted.old.thread mounted.old.stack.frames }
    requires next { HasNext program.now state.old mounted.old.thread mounted.old.stack.frames next }
    requires selected { AreSelected program.now cache.old }
    ensures made { IsTriedSo program.now state.old deques.old c mounted.old now (told_of result)
        (picked_by result) state.new deques.new mounted.new.stack.frames }
    ensures thread { OnOk (told_of result) (mounted.new.thread ≡ mounted.old.thread) }
    ensures kept { IfOk (told_of result) (λ tried.
        StaysIfReading tried mounted.old mounted.new) }
    ensures cache { AreSelected program.now cache.new }
{
    match next {
        Some(next) => { running_step(alloc, program, cache, state, deques, mounted, c, next, now) }
        None => other_step(alloc, program, cache, state, deques, mounted, c),
    }
}

/// How many steps an entry has at most.
pub(crate) const MOST_STEPS: u32 = 10_001;

// An entry comes last to the history.
#[inline(always)]
fn enter(history: &mut Vec<Entry>, c: u32, step: What, after: After) -> After
    requires { length history.old.items < vec_capacity history.old }
    ensures items { history.new.items
        ≡ history.old.items ++ record { carrier = c; what = step } ∷ [] }
    ensures capacity { vec_capacity history.new ≡ vec_capacity history.old }
    ensures after { result ≡ after }
{
    history.push_reserved(Entry {
        carrier: c,
        what: step,
    });
    after
}

/// The thread that a step picked.
#[inline(always)]
pub(crate) fn pick_of(tried: StepResult) -> Option<u32>
    ensures { result ≡ picked_by tried }
{
    match tried {
        StepResult::Notifies(thread) => Some(thread),
        _ => None,
    }
}

/// What becomes of the run after a step was tried: the entry goes to the history, or nothing was made, and the run halts unless the step reads the
/// clock.
#[inline(always)]
pub(crate) fn enter_step(
    history: &mut Vec<Entry>,
    told: &mut Option<Ending>,
    c: u32,
    step: What,
    tried: StepResult,
    most_threads: u32,
) -> After
    requires { length history.old.items < vec_capacity history.old }
    ensures entered { IsEntered (told_of tried) history.old.items told.old c step most_threads
        history.new.items told.new result }
    ensures capacity { vec_capacity history.new ≡ vec_capacity history.old }
{
    match tried {
        StepResult::Runs => enter(history, c, step, After::Runs),
        StepResult::Goes => enter(history, c, step, After::Goes),
        StepResult::Notifies(_) => enter(history, c, step, After::Goes),
        StepResult::Leaves => enter(history, c, step, After::Leaves),
        StepResult::Waits => enter(history, c, step, After::Waits),
        StepResult::Ends => enter(history, c, step, After::Ends),
        StepResult::ReadsClock => After::ReadsClock,
        StepResult::LacksThreads => {
            *told = Some(Ending::Limit(Which::Threads, most_threads));
            After::Halts
        }
        StepResult::LacksMemory => {
            *told = Some(Ending::Halted);
            After::Halts
        }
    }
}
