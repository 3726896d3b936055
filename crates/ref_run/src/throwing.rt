//! Exceptions on their way, and the monitors that they leave (JVMS 2.10, 2.11.10).

ghost use Rattle.std.specs.Prelude.{◌≡◌, ◌∷◌, List, Some, IfOk, OnOk};
ghost use Rattle.state_model.specs.Frames.{Frame};
ghost use Rattle.ref_model.specs.Throwing as spec;
ghost use Rattle.ref_run.specs.GoingOn.{LeavesTo};
ghost use Rattle.ref_run.specs.States.{frames_of, state_of};
ghost use Rattle.ref_run.specs.Steps.{IsThrown, left_unowned};

use crate::state::{RefState, leave, owns, row_at};
use crate::taking::{put_frames, take_frames};
use items::NoMemory;
use std::alloc::Global;
use thread_steps;
use thread_steps::{MachineWorld, MonitorThrow, Thrown, drop_unlocked};

// The step of a thread that throws an object, where that leaves no monitor.
fn throw_object<W: MachineWorld>(
    alloc: Global,
    world: &W,
    state: &mut RefState,
    t: u32,
    o: u32,
) -> Result<Thrown, NoMemory>
    ensures { IfOk result (λ thrown. IsThrown (W.world world.now) (state_of state.old) t o thrown
        (state_of state.new)) }
{
    let name = row_at(state, t)?.thread().name;
    let mut mounted = take_frames(alloc, state, t)?;
    let thrown = thread_steps::throwing_step(
        alloc,
        world,
        &mut state.memory,
        &mut mounted,
        t,
        name,
        o,
    )?;
    put_frames(state, t, mounted);
    Ok(thrown)
}

// What a thread throws, an object of a class, leaves its top frame, which holds no monitor any more.
fn drop_frame<W: MachineWorld>(
    alloc: Global,
    world: &W,
    state: &mut RefState,
    t: u32,
    class: u32,
) -> Result<(), NoMemory>
    ensures { OnOk result (LeavesTo
        (λ r f below. spec.frame_dropped (W.world world.now) r t class f below) t
        (state_of state.old) (state_of state.new)) }
{
    let name = row_at(state, t)?.thread().name;
    let mut mounted = take_frames(alloc, state, t)?;
    drop_unlocked(
        alloc,
        world,
        &mut state.memory,
        &mut mounted,
        t,
        name,
        class,
    )?;
    put_frames(state, t, mounted);
    Ok(())
}

// A thread doesn't own the monitor of its top frame: IllegalMonitorStateException takes the place of what it throws, and leaves the frame.
fn throw_unowned<W: MachineWorld>(
    alloc: Global,
    world: &W,
    state: &mut RefState,
    t: u32,
) -> Result<(), NoMemory>
    ensures { OnOk result (LeavesTo
        (λ r f below. left_unowned (W.world world.now) r t f below) t
        (state_of state.old) (state_of state.new)) }
{
    let name = row_at(state, t)?.thread().name;
    let mut mounted = take_frames(alloc, state, t)?;
    thread_steps::throw_unowned(alloc, world, &mut state.memory, &mut mounted, t, name)?;
    put_frames(state, t, mounted);
    Ok(())
}

// What a thread throws leaves a frame that holds a monitor, which the thread leaves once, where it owns that.
fn leave_monitor<W: MachineWorld>(
    alloc: Global,
    world: &W,
    state: &mut RefState,
    t: u32,
    held: MonitorThrow,
) -> Result<(), NoMemory>
    ensures { OnOk result (LeavesTo
        (λ r f below. spec.frame_with_monitor_left (W.world world.now) r t held.class f below
        held.monitor) t (state_of state.old) (state_of state.new)) }
{
    if !owns(state, t, held.monitor) {
        return throw_unowned(alloc, world, state, t);
    }
    leave(state, held.monitor)?;
    drop_frame(alloc, world, state, t, held.class)
}

/// The step of a thread that throws an object.
pub(crate) fn throwing_step<W: MachineWorld>(
    alloc: Global,
    world: &W,
    state: &mut RefState,
    t: u32,
    o: u32,
) -> Result<(), NoMemory>
    ensures { OnOk result ((frames : List Frame) → frames_of (state_of state.old) t ≡ Some frames
        → spec.throwing_step (W.world world.now) (state_of state.old) t o frames
        ≡ Some (state_of state.new)) }
{
    let thrown = throw_object(alloc, world, state, t, o)?;
    match thrown {
        Thrown::Stepped => Ok(()),
        Thrown::Holds(held) => leave_monitor(alloc, world, state, t, held),
    }
}
