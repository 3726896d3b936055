//! Exceptions on their way, as steps of a thread (JVMS 2.10, JLS 11.3).

ghost use Rattle.std.specs.Prelude.{◌≡◌, ◌<◌, ◌++◌, Some, length, slice_get, IfOk, IfSome, OnOk};
ghost use Rattle.ref_model.specs.Throwing as spec;
ghost use Rattle.thread_steps.specs.Returning.{EndsUncaught, ThrowProceeds, UnlockedDrops, UnownedThrows};
ghost use Rattle.state_model.specs.Objects.{text};

use crate::concluding::make_exception;
use crate::parts::Parts;
use crate::world::MachineWorld;
use continuation::Mounted;
use heap_instructions::class_number;
use heap_objs::Heap;
use invocation::{Caught, catch_object, drop_frame};
use items::NoMemory;
use native_methods::push_text;
use ref_model::Exception;
use std::alloc::Global;
use vthread_state::{Phase, Status};

// The units of the String with this number. `None`: there is no such String.
fn name_units(heap: &Heap, name: u32) -> Option<&[u16]>
    ensures { IfSome result (λ units. slice_get heap.now.objects name ≡ Some (text units.now)) }
{
    if name as usize >= heap.count() || !heap.is_text(name) {
        return None;
    }
    Some(heap.units(name))
}

// The line on an exception that nothing catches.
fn uncaught_line(alloc: Global, thread: &[u16], class: &[u16]) -> Result<Vec<u16>, NoMemory>
    ensures { IfOk result (λ line. line.items ≡ spec.uncaught_line thread.now class.now) }
{
    let mut line = Vec::new(alloc);
    push_ascii(&mut line, b"Exception in thread \"")?;
    line.extend_from_slice(thread)?;
    push_ascii(&mut line, b"\" ")?;
    line.extend_from_slice(class)?;
    line.push(u16::from(b'\n'))?;
    Ok(line)
}

// Pushes the units of an ASCII text.
fn push_ascii(units: &mut Vec<u16>, text: &[u8]) -> Result<(), NoMemory>
    ensures { OnOk result (units.new.items ≡ units.old.items ++ text.now) }
{
    for byte in text {
        units.push(u16::from(*byte))?;
    }
    Ok(())
}

// Nothing in this thread caught an object of a class: its line is written, and the thread is done.
fn end_uncaught<W: MachineWorld>(
    alloc: Global,
    world: &W,
    parts: &mut Parts,
    mounted: &mut Mounted,
    thread: u32,
    name: u32,
    class: u32,
) -> Result<(), NoMemory>
    ensures { OnOk result (EndsUncaught (W.world world.now) thread name class parts.old
        parts.new mounted.new.stack.frames) }
{
    let class_name = world.class_name(alloc, class)?;
    let Some(thread_name) = name_units(&parts.natives.heap, name) else {
        return Err(NoMemory);
    };
    let line = uncaught_line(alloc, thread_name, &class_name)?;
    push_text(&mut parts.natives.err, &line)?;
    parts.main_threw |= thread == 0;
    parts.status = Status::Done;
    *mounted = Mounted::new(alloc, thread);
    Ok(())
}

/// An object of a class that is thrown, and that nothing catches in a frame which holds a monitor.
#[derive(Clone, Copy)]
pub struct MonitorThrow {
    pub class: u32,
    pub monitor: u32,
}

/// What became of the step of a thread that throws.
#[derive(Clone, Copy)]
pub enum Thrown {
    /// The thread made its step.
    Stepped,
    /// It leaves a monitor with its frame, and nothing has changed.
    Holds(MonitorThrow),
}

/// The step of a thread that throws an object. The thread has this number, and the String `name` is its name; thread 0 is the main thread.
pub fn throwing_step<W: MachineWorld>(
    alloc: Global,
    world: &W,
    parts: &mut Parts,
    mounted: &mut Mounted,
    thread: u32,
    name: u32,
    o: u32,
) -> Result<Thrown, NoMemory>
    requires { 0 < length mounted.old.stack.frames }
    ensures { IfOk result (λ thrown. ThrowProceeds (W.world world.now) thread name o thrown
        parts.old mounted.old.stack.frames parts.new mounted.new.stack.frames) }
{
    let Some(class) = class_number(world, &parts.natives.heap, o) else {
        return Err(NoMemory);
    };
    match catch_object(world, class, o, mounted) {
        Caught::Handled => {
            parts.status = Status::Live(Phase::Run);
            Ok(Thrown::Stepped)
        }
        Caught::Left => Ok(Thrown::Stepped),
        Caught::Uncaught => {
            end_uncaught(alloc, world, parts, mounted, thread, name, class)?;
            Ok(Thrown::Stepped)
        }
        Caught::Holds(monitor) => Ok(Thrown::Holds(MonitorThrow { class, monitor })),
        Caught::Undefined => Err(NoMemory),
    }
}

/// The rest of such a step, where the thread has left the monitor that its frame held.
pub fn drop_unlocked<W: MachineWorld>(
    alloc: Global,
    world: &W,
    parts: &mut Parts,
    mounted: &mut Mounted,
    thread: u32,
    name: u32,
    class: u32,
) -> Result<(), NoMemory>
    requires { 0 < length mounted.old.stack.frames }
    ensures { OnOk result (UnlockedDrops (W.world world.now) thread name class
        parts.old mounted.old.stack.frames parts.new mounted.new.stack.frames) }
{
    if drop_frame(world, mounted) {
        return Ok(());
    }
    end_uncaught(alloc, world, parts, mounted, thread, name, class)
}

/// The rest of such a step, where the thread doesn't own that monitor: IllegalMonitorStateException takes the place of what it threw.
pub fn throw_unowned<W: MachineWorld>(
    alloc: Global,
    world: &W,
    parts: &mut Parts,
    mounted: &mut Mounted,
    thread: u32,
    name: u32,
) -> Result<(), NoMemory>
    requires { 0 < length mounted.old.stack.frames }
    ensures { OnOk result (UnownedThrows (W.world world.now) thread name
        parts.old mounted.old.stack.frames parts.new mounted.new.stack.frames) }
{
    let exception = Exception::IllegalMonitorStateException;
    let o = make_exception(world, &mut parts.natives.heap, exception)?;
    if drop_frame(world, mounted) {
        parts.status = Status::Live(Phase::Throwing(o));
        return Ok(());
    }
    let Some(class) = class_number(world, &parts.natives.heap, o) else {
        return Err(NoMemory);
    };
    end_uncaught(alloc, world, parts, mounted, thread, name, class)
}
