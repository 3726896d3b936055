//! Threads that are started (java.lang.Thread).

ghost use Rattle.std.specs.Prelude.{◌≡◌, ◌<◌, true, false, length, IfOk, OnOk};
ghost use Rattle.vthread_state.specs.declared.thread.Status.TheVariants.{Live};
ghost use Rattle.vthread_state.specs.Threads.{with_status};
ghost use Rattle.program_state.specs.Monitors.{AreSeated};
ghost use Rattle.program_state.specs.Starting.{IsBegun, IsFirst, IsPushed, IsRun, IsStart, begin_phase};

use crate::monitor_waits::line_up_for;
use crate::state::{ProgramState, row_at};
use crate::world::ThreadWorld;
use continuation::{Frozen, Mounted};
use heap_instructions::class_number;
use instruction_rows::{Slot, Value};
use items::NoMemory;
use link_model::{MethodCode, is_synchronized};
use link_rules::Choice;
use ref_model::Exception;
use std::alloc::Global;
use vthread_state::{Phase, Status, ThreadTable};

/// The frames of a thread that begins, and the monitor that it enters first, where its run is synchronized.
#[derive(Drop)]
pub(crate) struct First {
    pub(crate) frozen: Frozen,
    pub(crate) monitor: Option<u32>,
}

/// What a start of a thread comes to.
#[derive(Drop)]
pub(crate) enum Start {
    /// It begins so.
    Begins(First),
    /// The thread that starts it throws a new exception.
    Throws(Exception),
}

// A continuation as no carrier runs it.
fn freeze(mounted: Mounted) -> Result<Frozen, NoMemory>
    ensures { IfOk result (λ frozen. frozen ≡ mounted) }
{
    match mounted.freeze() {
        Ok(frozen) => Ok(frozen),
        Err(_) => Err(NoMemory),
    }
}

// The frame of a thread that begins with a method on an object, with so many local variables.
fn push_first(
    alloc: Global,
    thread: u32,
    method: u32,
    code: &MethodCode,
    object: u32,
    locals: u32,
) -> Result<Mounted, NoMemory>
    requires { 0 < locals }
    ensures { IfOk result (IsPushed thread method code.now object locals) }
{
    let mut mounted = Mounted::new(alloc, thread);
    match mounted.push_frame(method, locals, code.max_stack, 0) {
        Ok(()) => {
            mounted.set_local(0, Slot::One(Value::Ref(object)));
            Ok(mounted)
        }
        Err(_) => Err(NoMemory),
    }
}

// The frames of a thread that begins with a method on an object. A method without local variables counts as memory run out.
fn first_frames(
    alloc: Global,
    thread: u32,
    method: u32,
    code: &MethodCode,
    object: u32,
) -> Result<Frozen, NoMemory>
    ensures { IfOk result (IsFirst thread method code.now object false) }
{
    if code.max_locals == 0 {
        return Err(NoMemory);
    }
    let locals = code.max_locals as u32;
    freeze(push_first(alloc, thread, method, code, object, locals)?)
}

// The same of a synchronized method. The number of the object's monitor lies in one more local variable of the frame, the last.
fn synchronized_frames(
    alloc: Global,
    thread: u32,
    method: u32,
    code: &MethodCode,
    object: u32,
) -> Result<Frozen, NoMemory>
    ensures { IfOk result (IsFirst thread method code.now object true) }
{
    if code.max_locals == 0 {
        return Err(NoMemory);
    }
    let locals = code.max_locals as u32 + 1;
    let mut mounted = push_first(alloc, thread, method, code, object, locals)?;
    mounted.set_local(code.max_locals, Slot::One(Value::Ref(object)));
    freeze(mounted)
}

// A thread begins with the method of a number as its run. It enters the monitor of its object first, where the method is synchronized.
fn begin_run<W: ThreadWorld>(
    alloc: Global,
    world: &W,
    thread: u32,
    method: u32,
    object: u32,
) -> Result<Start, NoMemory>
    ensures { IfOk result (IsRun (W.world world.now) thread object method) }
{
    let Some(code) = world.code(method) else {
        return Ok(Start::Throws(Exception::AbstractMethodError));
    };
    let Some(info) = world.method(method) else {
        return Err(NoMemory);
    };
    if is_synchronized(info) {
        let frozen = synchronized_frames(alloc, thread, method, code, object)?;
        let monitor = Some(object);
        return Ok(Start::Begins(First { frozen, monitor }));
    }
    let frozen = first_frames(alloc, thread, method, code, object)?;
    let monitor = None;
    Ok(Start::Begins(First { frozen, monitor }))
}

/// What a start of thread u comes to: what is selected for its object as its run begins (JVMS 5.4.6).
pub(crate) fn start_of<W: ThreadWorld>(
    alloc: Global,
    world: &W,
    state: &ProgramState,
    u: u32,
) -> Result<Start, NoMemory>
    ensures { IfOk result (IsStart (W.world world.now) u state.now) }
{
    let row = row_at(&state.threads, u)?;
    let Status::New = row.status else {
        return Ok(Start::Throws(Exception::IllegalThreadStateException));
    };
    let Some(run) = world.run_method() else {
        return Err(NoMemory);
    };
    let Some(class) = class_number(world, &state.memory.natives.heap, row.object) else {
        return Err(NoMemory);
    };
    let Some(choice) = world.choice(alloc, class, run)? else {
        return Err(NoMemory);
    };
    match choice {
        Choice::Method(place) => {
            let method = world.method_number(place)?;
            begin_run(alloc, world, u, method, row.object)
        }
        Choice::Abstract => Ok(Start::Throws(Exception::AbstractMethodError)),
        Choice::Several => Ok(Start::Throws(Exception::IncompatibleClassChangeError)),
    }
}

// A new thread is live, and runs or waits to enter a monitor. One that isn't new counts as memory run out.
fn start_in(threads: &mut ThreadTable, u: u32, monitor: Option<u32>) -> Result<(), NoMemory>
    requires { u < length threads.old.threads }
    ensures { OnOk result (threads.new
        ≡ with_status threads.old u (Live (begin_phase monitor))) }
{
    let Ok(()) = threads.start(u) else {
        return Err(NoMemory);
    };
    let Some(o) = monitor else {
        return Ok(());
    };
    threads.set_phase(u, Phase::Entering(o));
    Ok(())
}

/// A new thread is live, has these frames, and lines up for the monitor that it enters first. One that isn't new counts as memory run out.
pub(crate) fn begin_thread(state: &mut ProgramState, u: u32, first: First) -> Result<(), NoMemory>
    requires { AreSeated state.old.monitors state.old.threads }
    ensures { OnOk result (IsBegun u first state.old state.new) }
{
    if u >= state.threads.count() || u as usize >= state.frozen.len() {
        return Err(NoMemory);
    }
    let First { frozen, monitor } = first;
    line_up_for(&mut state.monitors, u, monitor)?;
    start_in(&mut state.threads, u, monitor)?;
    state.frozen[u as usize] = Some(frozen);
    Ok(())
}
