//! Threads that are started (java.lang.Thread).

ghost use Rattle.std.specs.Prelude.{◌≡◌, ◌<◌, ◌∷◌, [], None, Some, IfOk};
ghost use Rattle.state_model.specs.Frames.{Frame};
ghost use Rattle.ref_model.specs.Starting as starting;
ghost use Rattle.ref_run.specs.Replies.{Answers};
ghost use Rattle.ref_run.specs.Starting.{IsFirst, IsPushed, IsRun, IsStart, begin_phase, run_monitor};
ghost use Rattle.ref_run.specs.States.{state_of};

use crate::fault::Fault;
use crate::reply::Reply;
use crate::state::{RefState, row_at};
use continuation::Mounted;
use heap_instructions::class_number;
use instruction_rows::{Slot, Value};
use items::NoMemory;
use link_model::{MethodCode, MethodInfo, is_synchronized};
use link_rules::Choice;
use ref_model::{Exception, ThreadRequest};
use std::alloc::Global;
use thread_steps::MachineWorld;
use vthread_state::{Phase, Status};

/// How a thread begins: its frames, and the monitor that it enters first, where its run is synchronized.
#[derive(Drop)]
pub(crate) struct First {
    pub(crate) mounted: Mounted,
    pub(crate) monitor: Option<u32>,
}

/// What a start of a thread comes to.
#[derive(Drop)]
pub(crate) enum Start {
    /// It begins so.
    Begins(First),
    /// The thread that starts it throws a new exception.
    Throws(Exception),
}

// The monitor that a thread enters first, whose run on an object is this method.
fn run_monitor(method: &MethodInfo, object: u32) -> Option<u32>
    ensures { result ≡ run_monitor method.now object }
{
    if is_synchronized(method) {
        Some(object)
    } else {
        None
    }
}

// The frame of a method with so many local variables, of which the first has an object.
fn push_first(
    alloc: Global,
    thread: u32,
    method: u32,
    code: &MethodCode,
    object: u32,
    locals: u32,
) -> Result<Mounted, NoMemory>
    requires { 0 < locals }
    ensures { IfOk result (IsPushed method code.now object locals) }
{
    let mut mounted = Mounted::new(alloc, thread);
    match mounted.push_frame(method, locals, code.max_stack, 0) {
        Ok(()) => {
            mounted.set_local(0, Slot::One(Value::Ref(object)));
            Ok(mounted)
        }
        Err(_) => Err(NoMemory),
    }
}

// The frames of a thread that begins with a method on an object. A method without local variables counts as memory run out.
fn plain_frames(
    alloc: Global,
    thread: u32,
    method: u32,
    code: &MethodCode,
    object: u32,
) -> Result<Mounted, NoMemory>
    ensures { IfOk result (IsFirst method code.now object None) }
{
    if code.max_locals == 0 {
        return Err(NoMemory);
    }
    push_first(alloc, thread, method, code, object, code.max_locals as u32)
}

// The same of a synchronized method. The monitor's number lies in one more local variable of the frame, the last.
fn guarded_frames(
    alloc: Global,
    thread: u32,
    method: u32,
    code: &MethodCode,
    object: u32,
    monitor: u32,
) -> Result<Mounted, NoMemory>
    ensures { IfOk result (IsFirst method code.now object (Some monitor)) }
{
    if code.max_locals == 0 {
        return Err(NoMemory);
    }
    let locals = code.max_locals as u32 + 1;
    let mut mounted = push_first(alloc, thread, method, code, object, locals)?;
    mounted.set_local(code.max_locals, Slot::One(Value::Ref(monitor)));
    Ok(mounted)
}

// The frames of a thread that begins with a method on an object, and enters this monitor first, or none.
fn first_frames(
    alloc: Global,
    thread: u32,
    method: u32,
    code: &MethodCode,
    object: u32,
    monitor: Option<u32>,
) -> Result<Mounted, NoMemory>
    ensures { IfOk result (IsFirst method code.now object monitor) }
{
    match monitor {
        Some(o) => guarded_frames(alloc, thread, method, code, object, o),
        None => plain_frames(alloc, thread, method, code, object),
    }
}

// A thread begins with the method of a number as its run. It enters the monitor of its object first, where the method is synchronized.
fn begin_run<W: MachineWorld>(
    alloc: Global,
    world: &W,
    thread: u32,
    method: u32,
    object: u32,
) -> Result<Start, NoMemory>
    ensures { IfOk result (IsRun (W.world world.now) thread object method) }
{
    let Some(code) = world.code(method) else {
        return Ok(Start::Throws(Exception::AbstractMethodError));
    };
    let Some(info) = world.method(method) else {
        return Err(NoMemory);
    };
    let monitor = run_monitor(info, object);
    let mounted = first_frames(alloc, thread, method, code, object, monitor)?;
    Ok(Start::Begins(First { mounted, monitor }))
}

// What a start of thread u comes to: what is selected for its object as its run begins (JVMS 5.4.6). `run` is the method run of
// java.lang.Thread.
fn start_of<W: MachineWorld>(
    alloc: Global,
    world: &W,
    state: &RefState,
    run: Option<u32>,
    u: u32,
) -> Result<Start, NoMemory>
    requires { run ≡ starting.run_method (W.world world.now) }
    ensures { IfOk result (IsStart (W.world world.now) u (state_of state.now)) }
{
    let thread = row_at(state, u)?.thread();
    let Status::New = thread.status else {
        return Ok(Start::Throws(Exception::IllegalThreadStateException));
    };
    let Some(run) = run else {
        return Err(NoMemory);
    };
    let Some(class) = class_number(world, &state.memory.natives.heap, thread.object) else {
        return Err(NoMemory);
    };
    let Some(choice) = world.choice(alloc, class, run)? else {
        return Err(NoMemory);
    };
    match choice {
        Choice::Method(place) => {
            let method = world.method_number(place)?;
            begin_run(alloc, world, u, method, thread.object)
        }
        Choice::Abstract => Ok(Start::Throws(Exception::AbstractMethodError)),
        Choice::Several => Ok(Start::Throws(Exception::IncompatibleClassChangeError)),
    }
}

// The phase in which a thread begins, which enters a monitor first or doesn't.
fn begin_phase(monitor: Option<u32>) -> Phase
    ensures { result ≡ begin_phase monitor }
{
    match monitor {
        Some(o) => Phase::Entering(o),
        None => Phase::Run,
    }
}

// A thread is live, and begins so.
fn begin_thread(state: &mut RefState, u: u32, first: First)
    ensures { (f : Frame) → first.mounted.stack.frames ≡ f ∷ [] → state_of state.new
        ≡ starting.with_begun (state_of state.old) u (begin_phase first.monitor) f }
{
    if (u as usize) < state.threads.len() {
        let First { mounted, monitor } = first;
        let row = &mut state.threads[u as usize];
        row.set_status(Status::Live(begin_phase(monitor)));
        row.put_frames(mounted);
    }
}

/// start. A thread that starts itself, which isn't new, counts as memory run out.
pub(crate) fn start_thread<W: MachineWorld>(
    alloc: Global,
    world: &W,
    state: &mut RefState,
    t: u32,
    run: Option<u32>,
    u: u32,
) -> Result<Reply, Fault>
    requires { run ≡ starting.run_method (W.world world.now) }
    ensures { Answers (W.world world.now) (ThreadRequest.Starts u) t
        (state_of state.old) result (state_of state.new) }
{
    match start_of(alloc, world, state, run, u)? {
        Start::Begins(first) => {
            if t == u {
                return Err(Fault::NoMemory);
            }
            begin_thread(state, u, first);
            Ok(Reply::Goes)
        }
        Start::Throws(exception) => Ok(Reply::Throws(exception)),
    }
}
