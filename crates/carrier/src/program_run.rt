//! Runs a program to its end.

ghost use Rattle.std.specs.Prelude.{◌≡◌, ◌≢◌, ◌<◌, ℕ, Bool, All, IfOk, Some, length};
ghost use Rattle.ref_model.specs.declared.ending.Ending.TheVariants.{Halted, Stalled, Starved};
ghost use Rattle.ref_model.specs.Setting.{Setting};
ghost use Rattle.step_soundness.specs.OpeningLaws.{IsMain};
ghost use Rattle.link_soundness.specs.Library.{HasLibrary};
ghost use Rattle.machine.specs.Legal.{Works};
ghost use Rattle.machine.specs.Live.{ListsLive, ListsMounted};
ghost use Rattle.machine.specs.Machines.{machine_ending};
ghost use Rattle.carrier.specs.Posts.{IsBeginning, IsNewSeat, IsPost};
ghost use Rattle.carrier.specs.Runs.{IsRun, IsTimed};
ghost use Rattle.carrier.specs.Shared.{machine_parts, shared_run};

use crate::execution::Execution;
use crate::post::Post;
use crate::readings::longest_nap;
use crate::threads::run_carriers;
use crate::timed_machine::{MachineLock, TimedMachine};
use class_world::World;
use items::NoMemory;
use jvm_edges::{Clock, Gate};
use machine::{Machine, ReadyProgram, Written};
use ref_model::{Ending, Limits};
use std::alloc::Global;
use std::sync::Wait;
use std::thread::Threads;
use turn_lock::{Seat, TurnLock};
use verify_code::Checked;

// What the carriers have when a run begins, each with its seat.
fn new_posts<'p, C: Clock>(
    alloc: Global,
    lock: &MachineLock<'p, '_, C>,
    mut seats: Vec<Seat>,
) -> Result<Vec<Post<'p>>, NoMemory>
    requires begins { IsBeginning lock.now.initial.machine }
    requires seats { All (IsNewSeat lock.now.id lock.now.initial.machine.carriers) seats.items }
    ensures posts { IfOk result (λ v. All (IsPost (shared_run C.gives lock.now)) v.items) }
    ensures count { IfOk result (λ v. length v.items ≡ length seats.items) }
{
    let longest = longest_nap(seats.len());
    let mut posts = Vec::with_capacity(alloc, seats.len())?;
    while let Some(seat) = seats.pop() {
        posts.push(Post::new(alloc, lock, seat, longest)?)?;
    }
    Ok(posts)
}

// Runs a machine that begins on its carriers, until the run has ended: what it is then.
fn run_machine<'p, R: Threads + Wait + Sync, C: Clock + Sync, G: Gate + Sync>(
    rt: &R,
    alloc: Global,
    program: &'p ReadyProgram,
    machine: Machine<'p>,
    clock: &C,
    gate: &G,
) -> Result<Machine<'p>, NoMemory>
    requires begins { IsBeginning machine }
    requires some { 0 < machine.carriers }
    requires program { program.now ≡ machine.setting.world }
    ensures parts { IfOk result (λ m. machine_parts m ≡ machine_parts machine.entry) }
    ensures timed { IfOk result (IsTimed (C.gives clock.now)) }
{
    let carriers = machine.carriers();
    let timed = TimedMachine::new(alloc, machine, clock)?;
    let (lock, seats) = TurnLock::new(alloc, timed, carriers)?;
    let posts = new_posts(alloc, &lock, seats)?;
    let seats = run_carriers(rt, alloc, program, &lock, posts, clock, gate)?;
    Ok(lock.close(seats).into_machine())
}

// The threads that an answer lists.
fn listed_threads(
    alloc: Global,
    machine: &Machine<'_>,
    ending: Ending,
) -> Result<Vec<u32>, NoMemory>
    requires { Works machine.now }
    ensures stalled { IfOk result (λ v. ending ≡ Stalled → ListsLive machine.now v.items) }
    ensures starved { IfOk result (λ v. ending ≡ Starved → ListsMounted machine.now v.items) }
{
    if let Ending::Stalled = ending {
        return machine.live_threads(alloc);
    }
    if let Ending::Starved = ending {
        return machine.mounted_threads(alloc);
    }
    Ok(Vec::new(alloc))
}

// How a run has ended that wasn't given up.
fn ending_of(machine: &Machine<'_>) -> Result<Ending, NoMemory>
    ensures ending { IfOk result (λ ending. machine_ending machine.now ≡ Some ending) }
    ensures works { IfOk result (λ ending. ending ≢ Halted) }
{
    match machine.ending() {
        None | Some(Ending::Halted) => Err(NoMemory),
        Some(ending) => Ok(ending),
    }
}

// What a machine leaves, unless its run was given up.
fn leave(alloc: Global, machine: Machine<'_>) -> Result<Execution, NoMemory>
    ensures { (gives : ℕ → Bool) → IsTimed gives machine.entry
        → IfOk result (λ x. IsRun machine.entry.setting gives machine.entry.carriers
        x.history.items x.out.items x.err.items x.listed.items x.ending) }
{
    let ending = ending_of(&machine)?;
    machine.is_legal();
    let listed = listed_threads(alloc, &machine, ending)?;
    let Written { history, out, err } = machine.into_written();
    Ok(Execution {
        history,
        out,
        err,
        listed,
        ending,
    })
}

// The same as `run`, of a program that is ready.
fn run_ready<R: Threads + Wait + Sync, C: Clock + Sync, G: Gate + Sync>(
    rt: &R,
    alloc: Global,
    program: &ReadyProgram,
    main: u32,
    limits: Limits,
    carriers: u32,
    clock: &C,
    gate: &G,
) -> Result<Execution, NoMemory>
    requires library { HasLibrary program.now.program }
    requires main { IsMain program.now main }
    requires some { 0 < carriers }
    ensures { IfOk result (λ x. (p : Setting) → p.world ≡ program.now → p.main ≡ main
        → p.limits ≡ limits → IsRun p (C.gives clock.now) carriers x.history.items
        x.out.items x.err.items x.listed.items x.ending) }
{
    let machine = Machine::begin(alloc, program, main, limits, carriers)?;
    machine.is_legal();
    if machine.ending().is_some() {
        return leave(alloc, machine);
    }
    let machine = run_machine(rt, alloc, program, machine, clock, gate)?;
    leave(alloc, machine)
}

/// Runs the main method with this number, on so many carriers, until the run has ended: the program has, or no thread can go on, or the
/// carriers' pinned threads keep all others from it, or it came to a limit. Each carrier has a thread of its own, as far as threads can be
/// started. Where it finds nothing to do it naps by the clock, so a run may wait. The gate is passed before local instructions. The program has
/// the built-in classes.
pub fn run<R: Threads + Wait + Sync, C: Clock + Sync, G: Gate + Sync>(
    rt: &R,
    alloc: Global,
    checked: Checked<World>,
    main: u32,
    limits: Limits,
    carriers: u32,
    clock: &C,
    gate: &G,
) -> Result<Execution, NoMemory>
    requires library { HasLibrary checked.program }
    requires main { IsMain checked main }
    requires some { 0 < carriers }
    ensures { IfOk result (λ x. (p : Setting) → p.world ≡ checked → p.main ≡ main
        → p.limits ≡ limits → IsRun p (C.gives clock.now) carriers x.history.items
        x.out.items x.err.items x.listed.items x.ending) }
{
    let program = ReadyProgram::new(alloc, checked)?;
    run_ready(rt, alloc, &program, main, limits, carriers, clock, gate)
}
