//! Exceptions that leave the frames of synchronized methods (JVMS 2.11.10).

ghost use Rattle.std.specs.Prelude.{◌≡◌, ◌<◌, length, IfOk, OnOk};
ghost use Rattle.vthread_state.specs.declared.phase.Phase.TheVariants.{Throwing};
ghost use Rattle.thread_steps.specs.Returning.{ThrowsFrom};
ghost use Rattle.thread_steps.specs.States.{memory_of};
ghost use Rattle.program_state.specs.Monitors.{ListsMove};
ghost use Rattle.monitor_steps.specs.Frames.{DropLeads, UnownedLeads};
ghost use Rattle.monitor_steps.specs.Outcomes.{IsLeaving};

use crate::outcome::MonitorOutcome;
use crate::owning::leave_once;
use continuation::Mounted;
use items::NoMemory;
use program_state::{ProgramState, ThreadWorld, row_at, settle_status};
use std::alloc::Global;
use thread_steps::{MonitorThrow, drop_unlocked, throw_unowned};
use vthread_state::{Phase, Status};

// What the thread throws, an object of a class, leaves its top frame, whose monitor it has left.
fn drop_frame<W: ThreadWorld>(
    alloc: Global,
    world: &W,
    state: &mut ProgramState,
    mounted: &mut Mounted,
    o: u32,
    class: u32,
) -> Result<(), NoMemory>
    requires { 0 < length mounted.old.stack.frames }
    ensures leads { OnOk result (DropLeads (W.world world.now) o class mounted.old.thread
        state.old mounted.old.stack.frames state.new mounted.new.stack.frames) }
    ensures monitors { OnOk result (state.new.monitors ≡ state.old.monitors) }
    ensures thread { OnOk result (mounted.new.thread ≡ mounted.old.thread) }
{
    let t = mounted.thread();
    let name = row_at(&state.threads, t)?.name;
    state.memory.status = Status::Live(Phase::Throwing(o));
    drop_unlocked(alloc, world, &mut state.memory, mounted, t, name, class)?;
    if mounted.thread() != t {
        return Err(NoMemory);
    }
    settle_status(state, t)
}

// The thread doesn't own the monitor of its top frame: IllegalMonitorStateException takes the place of what it throws.
fn throw_other<W: ThreadWorld>(
    alloc: Global,
    world: &W,
    state: &mut ProgramState,
    mounted: &mut Mounted,
    o: u32,
) -> Result<(), NoMemory>
    requires { 0 < length mounted.old.stack.frames }
    ensures leads { OnOk result (UnownedLeads (W.world world.now) o mounted.old.thread
        state.old mounted.old.stack.frames state.new mounted.new.stack.frames) }
    ensures monitors { OnOk result (state.new.monitors ≡ state.old.monitors) }
    ensures thread { OnOk result (mounted.new.thread ≡ mounted.old.thread) }
{
    let t = mounted.thread();
    let name = row_at(&state.threads, t)?.name;
    state.memory.status = Status::Live(Phase::Throwing(o));
    throw_unowned(alloc, world, &mut state.memory, mounted, t, name)?;
    if mounted.thread() != t {
        return Err(NoMemory);
    }
    settle_status(state, t)
}

/// The step of a thread that throws an object which nothing catches in its top frame, where that holds a monitor: the thread leaves the
/// monitor with its frame. Where it doesn't own that, IllegalMonitorStateException takes the place of what it throws.
pub fn leave_throw<W: ThreadWorld>(
    alloc: Global,
    world: &W,
    state: &mut ProgramState,
    mounted: &mut Mounted,
    o: u32,
    q: MonitorThrow,
) -> Result<MonitorOutcome, NoMemory>
    requires frame { 0 < length mounted.old.stack.frames }
    requires throws { ThrowsFrom (W.world world.now) q o (memory_of state.old.memory)
        mounted.old.stack.frames }
    ensures made { IfOk result (λ outcome. IsLeaving (W.world world.now) outcome (Throwing o)
        mounted.old.thread
        state.old mounted.old.stack.frames state.new mounted.new.stack.frames) }
    ensures lists { OnOk result (ListsMove state.old.monitors state.new.monitors) }
    ensures thread { OnOk result (mounted.new.thread ≡ mounted.old.thread) }
{
    match leave_once(&mut state.monitors, mounted.thread(), q.monitor)? {
        Some(outcome) => {
            drop_frame(alloc, world, state, mounted, o, q.class)?;
            Ok(outcome)
        }
        None => {
            throw_other(alloc, world, state, mounted, o)?;
            Ok(MonitorOutcome::Done)
        }
    }
}
