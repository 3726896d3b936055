//! The step of a mounted thread, by its phase.

ghost use Rattle.std.specs.Prelude.{◌≡◌, ◌<◌, ◌≤◌, ℕ, Bool, false, true, IfOk, IsSome, IsTrue, OnOk};
ghost use Rattle.vthread_state.specs.declared.phase.Phase.TheVariants.{Run, Throwing};
ghost use Rattle.vthread_state.specs.Threads.{phase_at};
ghost use Rattle.ref_model.specs.Looks as looks;
ghost use Rattle.ref_model.specs.Requests as requests;
ghost use Rattle.ref_model.specs.Requests.{request_of};
ghost use Rattle.frame_soundness.specs.Typed.{Typed};
ghost use Rattle.interp_local.specs.Fetched.{IsTopAt};
ghost use Rattle.invocation.specs.InvocationCache.{AreSelected};
ghost use Rattle.program_state.specs.Monitors.{AreSeated};
ghost use Rattle.program_state.specs.Requests.{IsPending};
ghost use Rattle.program_state.specs.Running.{IsCallPending, IsReturnPending};
ghost use Rattle.program_state.specs.States.{IsState};
ghost use Rattle.ref_model.specs.State as model;
ghost use Rattle.machine.specs.AtHand as spec;
ghost use Rattle.machine.specs.AtHand.{AreTyped, IsAt};
ghost use Rattle.machine.specs.Moves.{IsAsked, IsMade, IsRequested, Moves, MovesAtAnyTime, RunsOrAsks, StaysIfReading, has_stepped as has_stepped_in, others_after, others_left};
ghost use Rattle.thread_steps.specs.Returning.{ThrowsFrom};
ghost use Rattle.thread_steps.specs.States.{memory_of};
ghost use Rattle.thread_steps.specs.declared.progress.Progress.TheVariants.{Stepped};
ghost use Rattle.operand_soundness.specs.Ready.{IsReady};

use crate::made::{Attempt, Move, Others};
use continuation::Mounted;
use interp_local::Fetched;
use invocation::{InvocationCache, SynchronizedCall};
use items::NoMemory;
use monitor_steps::{
    MonitorOutcome, finish_entry, leave_throw, make_call, make_monitor_request, make_return,
};
use program_state::{
    ProgramState, RequestOutcome, finish_wait, make_request, run_step, throwing_step,
};
use ref_model::ThreadRequest;
use startup::ReadyProgram;
use std::alloc::Global;
use thread_calls::reads_clock;
use thread_steps::{MonitorReturn, MonitorThrow, PendingRequest, Progress, Thrown};
use vthread_state::Phase;

/// Whether a thread made its step.
#[inline(always)]
pub(crate) fn has_stepped(progress: Progress) -> bool
    ensures { result ≡ has_stepped_in progress }
{
    matches!(progress, Progress::Stepped)
}

// Whether a thread's interrupt status is set.
fn is_interrupted(state: &ProgramState, t: u32) -> bool
    ensures { (r : model.State) (out : ℕ → Bool) → IsState state.now r out
        → result ≡ model.is_interrupted r t }
{
    (t as usize) < state.wakes.count() && state.wakes.interrupted(t)
}

// Whether a request of a thread is a yield, by its interrupt status.
fn is_yield(interrupted: bool, request: ThreadRequest) -> bool
    ensures { result ≡ looks.is_yield interrupted (request_of request) }
{
    match request {
        ThreadRequest::Yields => true,
        ThreadRequest::Sleeps(millis) => !interrupted && millis == 0,
        _ => false,
    }
}

// Whether a request reads the clock, and the time is less than this.
fn is_early(state: &ProgramState, request: ThreadRequest, now: u64) -> bool
    ensures reads { IsTrue result → requests.reads_clock (request_of request) ≡ true }
    ensures early { IsTrue result → state.now.time < now }
    ensures in_time { result ≡ false → requests.reads_clock (request_of request) ≡ true
        → now ≤ state.now.time }
{
    reads_clock(request) && state.time < now
}

// Whether a request is one on a monitor, which is no yield.
fn is_on_monitor(request: ThreadRequest) -> bool
    ensures { IsTrue result → (interrupted : Bool)
        → looks.is_yield interrupted (request_of request) ≡ false }
{
    matches!(
        request,
        ThreadRequest::Enters(_)
            | ThreadRequest::Exits(_)
            | ThreadRequest::WaitsOn { .. }
            | ThreadRequest::Notifies(_)
            | ThreadRequest::NotifiesAll(_)
    )
}

// What a step on a monitor with this outcome does to other threads. It doesn't end its thread.
fn after_request(outcome: MonitorOutcome) -> Others
    ensures { result ≡ others_after outcome }
{
    match outcome {
        MonitorOutcome::Done => Others::Quiet,
        MonitorOutcome::Frees(first) => Others::Frees(first),
        MonitorOutcome::Notifies(thread) => Others::Notifies(thread),
    }
}

// The same of one by which its thread leaves a frame, which may be its last.
fn after_leaving(outcome: MonitorOutcome) -> Others
    ensures { result ≡ others_left outcome }
{
    match outcome {
        MonitorOutcome::Done => Others::Stay,
        MonitorOutcome::Frees(first) => Others::Frees(first),
        MonitorOutcome::Notifies(thread) => Others::Notifies(thread),
    }
}

// The step of a thread whose instruction asks something of a monitor.
fn monitor_move(
    program: &ReadyProgram,
    state: &mut ProgramState,
    mounted: &mut Mounted,
    pending: PendingRequest,
) -> Result<Move, NoMemory>
    requires runs { IsAt state.old mounted.old.thread Run }
    requires asks { IsPending program.now pending state.old.memory mounted.old.stack.frames }
    requires never { (interrupted : Bool)
        → looks.is_yield interrupted (request_of pending.request) ≡ false }
    requires seated { AreSeated state.old.monitors state.old.threads }
    ensures made { IfOk result (λ made. Moves program.now made mounted.old.thread
        state.old mounted.old.stack.frames state.new mounted.new.stack.frames) }
    ensures thread { mounted.new.thread ≡ mounted.old.thread }
{
    let outcome = make_monitor_request(program, state, mounted, pending)?;
    Ok(Move {
        others: after_request(outcome),
        yields: false,
    })
}

// The step of a thread whose instruction asks something else.
fn request_move(
    alloc: Global,
    program: &ReadyProgram,
    state: &mut ProgramState,
    mounted: &mut Mounted,
    pending: PendingRequest,
) -> Result<Attempt<Move>, NoMemory>
    requires runs { IsAt state.old mounted.old.thread Run }
    requires asks { IsPending program.now pending state.old.memory mounted.old.stack.frames }
    requires seated { AreSeated state.old.monitors state.old.threads }
    ensures made { IfOk result (λ tried. IsRequested program.now tried mounted.old.thread
        state.old mounted.old.stack.frames state.new mounted.new.stack.frames) }
    ensures thread { mounted.new.thread ≡ mounted.old.thread }
{
    let interrupted = is_interrupted(state, mounted.thread());
    let yields = is_yield(interrupted, pending.request);
    let others = match make_request(alloc, program, state, mounted, pending)? {
        RequestOutcome::Done => Others::Quiet,
        RequestOutcome::Starts(thread) => Others::Starts(thread),
        RequestOutcome::Wakes(thread) => Others::Wakes(thread),
        RequestOutcome::LacksThreads => return Ok(Attempt::LacksThreads),
    };
    Ok(Attempt::Made(Move { others, yields }))
}

// The step of a thread whose instruction asks this. One that reads the clock is made only where the time isn't less than `now`.
fn asking_move(
    alloc: Global,
    program: &ReadyProgram,
    state: &mut ProgramState,
    mounted: &mut Mounted,
    pending: PendingRequest,
    now: u64,
) -> Result<Attempt<Move>, NoMemory>
    requires runs { IsAt state.old mounted.old.thread Run }
    requires asks { IsPending program.now pending state.old.memory mounted.old.stack.frames }
    requires seated { AreSeated state.old.monitors state.old.threads }
    ensures made { IfOk result (λ made. IsMade program.now made now mounted.old.thread
        state.old mounted.old.stack.frames state.new mounted.new.stack.frames) }
    ensures thread { OnOk result (mounted.new.thread ≡ mounted.old.thread) }
    ensures kept { IfOk result (λ made. StaysIfReading made mounted.old mounted.new) }
{
    if is_early(state, pending.request, now) {
        return Ok(Attempt::ReadsClock);
    }
    if is_on_monitor(pending.request) {
        let made = monitor_move(program, state, mounted, pending)?;
        return Ok(Attempt::Made(made));
    }
    request_move(alloc, program, state, mounted, pending)
}

// The step of a thread whose instruction calls this synchronized method.
fn calling_move(
    program: &ReadyProgram,
    state: &mut ProgramState,
    mounted: &mut Mounted,
    call: SynchronizedCall,
) -> Result<Move, NoMemory>
    requires runs { IsAt state.old mounted.old.thread Run }
    requires calls { IsCallPending program.now call state.old.memory mounted.old.stack.frames }
    requires seated { AreSeated state.old.monitors state.old.threads }
    ensures made { IfOk result (λ made. MovesAtAnyTime program.now made mounted.old.thread
        state.old mounted.old.stack.frames state.new mounted.new.stack.frames) }
    ensures thread { mounted.new.thread ≡ mounted.old.thread }
{
    let _ = program;
    make_call(state, mounted, call)?;
    Ok(Move {
        others: Others::Quiet,
        yields: false,
    })
}

// The step of a thread whose instruction is this return, which leaves a monitor.
fn returning_move(
    program: &ReadyProgram,
    state: &mut ProgramState,
    mounted: &mut Mounted,
    q: MonitorReturn,
) -> Result<Move, NoMemory>
    requires runs { IsAt state.old mounted.old.thread Run }
    requires returns { IsReturnPending program.now q mounted.old.stack.frames }
    ensures made { IfOk result (λ made. MovesAtAnyTime program.now made mounted.old.thread
        state.old mounted.old.stack.frames state.new mounted.new.stack.frames) }
    ensures thread { OnOk result (mounted.new.thread ≡ mounted.old.thread) }
{
    let outcome = make_return(program, state, mounted, q)?;
    Ok(Move {
        others: after_leaving(outcome),
        yields: false,
    })
}

/// The step of a thread whose instruction asks this. One that reads the clock is made only where the time isn't less than `now`.
pub(crate) fn asked_move(
    alloc: Global,
    program: &ReadyProgram,
    state: &mut ProgramState,
    mounted: &mut Mounted,
    progress: Progress,
    now: u64,
) -> Result<Attempt<Move>, NoMemory>
    requires runs { IsAt state.old mounted.old.thread Run }
    requires asked { IsAsked program.now progress state.old.memory mounted.old.stack.frames }
    requires seated { AreSeated state.old.monitors state.old.threads }
    ensures made { IfOk result (λ made. IsMade program.now made now mounted.old.thread
        state.old mounted.old.stack.frames state.new mounted.new.stack.frames) }
    ensures thread { OnOk result (mounted.new.thread ≡ mounted.old.thread) }
    ensures kept { IfOk result (λ made. StaysIfReading made mounted.old mounted.new) }
{
    match progress {
        Progress::Stepped => Err(NoMemory),
        Progress::Asks(pending) => asking_move(alloc, program, state, mounted, pending, now),
        Progress::Calls(call) => {
            let made = calling_move(program, state, mounted, call)?;
            Ok(Attempt::Made(made))
        }
        Progress::Returns(q) => {
            let made = returning_move(program, state, mounted, q)?;
            Ok(Attempt::Made(made))
        }
    }
}

/// The step of a thread that runs, at this instruction, which isn't one that stays in its frame. What the instruction asks is written to
/// `progress`. Where the answer is true, the table of threads is as it was.
#[inline(always)]
pub(crate) fn running_move(
    alloc: Global,
    program: &ReadyProgram,
    cache: &mut InvocationCache,
    state: &mut ProgramState,
    mounted: &mut Mounted,
    progress: &mut Progress,
    next: Fetched<'_>,
) -> Result<bool, NoMemory>
    requires nothing { progress.old ≡ Stepped }
    requires ready { IsReady program.now }
    requires runs { IsAt state.old mounted.old.thread Run }
    requires typed { Typed program.now mounted.old.stack.frames }
    requires next { IsTopAt program.now mounted.old.stack.frames next }
    requires selected { AreSelected program.now cache.old }
    ensures made { OnOk result (RunsOrAsks program.now progress.new state.old mounted.old
        state.new mounted.new) }
    ensures same { IfOk result (λ same. IsTrue same → state.new.threads ≡ state.old.threads) }
    ensures thread { OnOk result (mounted.new.thread ≡ mounted.old.thread) }
    ensures cache { AreSelected program.now cache.new }
{
    run_step(
        alloc,
        program,
        cache,
        state,
        mounted,
        progress,
        next.instr,
        next.resolution,
    )
}

// The step of a thread that throws an object out of a frame that holds a monitor.
fn leaving_move(
    alloc: Global,
    program: &ReadyProgram,
    state: &mut ProgramState,
    mounted: &mut Mounted,
    o: u32,
    q: MonitorThrow,
) -> Result<Move, NoMemory>
    requires throws { IsAt state.old mounted.old.thread (Throwing o) }
    requires leaves { ThrowsFrom program.now q o (memory_of state.old.memory)
        mounted.old.stack.frames }
    ensures made { IfOk result (λ made. MovesAtAnyTime program.now made mounted.old.thread
        state.old mounted.old.stack.frames state.new mounted.new.stack.frames) }
    ensures thread { OnOk result (mounted.new.thread ≡ mounted.old.thread) }
{
    if mounted.depth() == 0 {
        return Err(NoMemory);
    }
    let outcome = leave_throw(alloc, program, state, mounted, o, q)?;
    Ok(Move {
        others: after_leaving(outcome),
        yields: false,
    })
}

// The step of a thread that throws an object.
fn throwing_move(
    alloc: Global,
    program: &ReadyProgram,
    state: &mut ProgramState,
    mounted: &mut Mounted,
    o: u32,
) -> Result<Move, NoMemory>
    requires throws { IsAt state.old mounted.old.thread (Throwing o) }
    ensures made { IfOk result (λ made. MovesAtAnyTime program.now made mounted.old.thread
        state.old mounted.old.stack.frames state.new mounted.new.stack.frames) }
    ensures thread { OnOk result (mounted.new.thread ≡ mounted.old.thread) }
{
    match throwing_step(alloc, program, state, mounted, o)? {
        Thrown::Stepped => Ok(Move {
            others: Others::Stay,
            yields: false,
        }),
        Thrown::Holds(q) => leaving_move(alloc, program, state, mounted, o, q),
    }
}

// The instruction of the top frame. A thread without one counts as memory run out.
fn top_instruction<'a>(
    program: &'a ReadyProgram,
    mounted: &Mounted,
) -> Result<Fetched<'a>, NoMemory>
    ensures { IfOk result (λ next. IsTopAt program.now mounted.now.stack.frames next) }
{
    if mounted.depth() == 0 {
        return Err(NoMemory);
    }
    let top = mounted.top();
    program.instruction(top.method, top.pc).ok_or(NoMemory)
}

// Whether a thread in a phase waits for a permit, a time or the end of another thread.
fn is_waiting(phase: Phase) -> bool
    ensures { result ≡ spec.is_waiting phase }
{
    matches!(
        phase,
        Phase::Parked(_) | Phase::Asleep(_) | Phase::Joining { .. }
    )
}

// The step of a thread that waited for a permit, a time or the end of another thread.
fn waiting_move(
    alloc: Global,
    program: &ReadyProgram,
    cache: &mut InvocationCache,
    state: &mut ProgramState,
    mounted: &mut Mounted,
    phase: Phase,
) -> Result<Move, NoMemory>
    requires ready { IsReady program.now }
    requires waits { IsAt state.old mounted.old.thread phase }
    requires waiting { spec.is_waiting phase ≡ true }
    requires typed { Typed program.now mounted.old.stack.frames }
    requires selected { AreSelected program.now cache.old }
    ensures made { IfOk result (λ made. MovesAtAnyTime program.now made mounted.old.thread
        state.old mounted.old.stack.frames state.new mounted.new.stack.frames) }
    ensures thread { OnOk result (mounted.new.thread ≡ mounted.old.thread) }
    ensures cache { AreSelected program.now cache.new }
{
    let next = top_instruction(program, mounted)?;
    finish_wait(
        alloc,
        program,
        cache,
        state,
        mounted,
        next.instr,
        next.resolution,
    )?;
    Ok(Move {
        others: Others::Stay,
        yields: false,
    })
}

// Whether a thread in a phase is in line for a monitor.
fn is_in_line(phase: Phase) -> bool
    ensures { result ≡ spec.is_in_line phase }
{
    matches!(phase, Phase::Entering(_) | Phase::Reenter { .. })
}

// The step of a thread that was in line for a monitor, which it takes.
fn entering_move(
    alloc: Global,
    program: &ReadyProgram,
    cache: &mut InvocationCache,
    state: &mut ProgramState,
    mounted: &mut Mounted,
    phase: Phase,
) -> Result<Move, NoMemory>
    requires ready { IsReady program.now }
    requires waits { IsAt state.old mounted.old.thread phase }
    requires in_line { spec.is_in_line phase ≡ true }
    requires typed { Typed program.now mounted.old.stack.frames }
    requires selected { AreSelected program.now cache.old }
    requires seated { AreSeated state.old.monitors state.old.threads }
    ensures made { IfOk result (λ made. MovesAtAnyTime program.now made mounted.old.thread
        state.old mounted.old.stack.frames state.new mounted.new.stack.frames) }
    ensures thread { OnOk result (mounted.new.thread ≡ mounted.old.thread) }
    ensures cache { AreSelected program.now cache.new }
{
    let _ = phase;
    let next = top_instruction(program, mounted)?;
    finish_entry(
        alloc,
        program,
        cache,
        state,
        mounted,
        next.instr,
        next.resolution,
    )?;
    Ok(Move {
        others: Others::Quiet,
        yields: false,
    })
}

/// The step of a mounted thread that doesn't run.
#[inline(always)]
pub(crate) fn other_move(
    alloc: Global,
    program: &ReadyProgram,
    cache: &mut InvocationCache,
    state: &mut ProgramState,
    mounted: &mut Mounted,
) -> Result<Move, NoMemory>
    requires ready { IsReady program.now }
    requires live { IsSome (phase_at state.old.threads mounted.old.thread) }
    requires typed { AreTyped program.now state.old mounted.old.thread mounted.old.stack.frames }
    requires selected { AreSelected program.now cache.old }
    requires seated { AreSeated state.old.monitors state.old.threads }
    ensures made { IfOk result (λ made. MovesAtAnyTime program.now made mounted.old.thread
        state.old mounted.old.stack.frames state.new mounted.new.stack.frames) }
    ensures thread { OnOk result (mounted.new.thread ≡ mounted.old.thread) }
    ensures cache { AreSelected program.now cache.new }
{
    let phase = state.threads.phase(mounted.thread());
    match phase {
        Phase::Throwing(o) => throwing_move(alloc, program, state, mounted, o),
        _ => {
            if is_in_line(phase) {
                return entering_move(alloc, program, cache, state, mounted, phase);
            }
            if !is_waiting(phase) {
                return Err(NoMemory);
            }
            waiting_move(alloc, program, cache, state, mounted, phase)
        }
    }
}
