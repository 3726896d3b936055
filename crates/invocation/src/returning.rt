//! Methods that end (JVMS 2.6.4).

ghost use Rattle.std.specs.Prelude.{◌≡◌, ◌<◌, Option, Some, length, slice_get, true};
ghost use Rattle.opcodes.specs.declared.op.ValueKind.{ValueKind};
ghost use Rattle.frames.specs.Frames.{top_method};
ghost use Rattle.ref_model.specs.Operands.{HasOperands};
ghost use Rattle.invocation.specs.FrameSteps.{HasPushed, IsBack, IsBehind, IsGuard, IsLeft, IsLeftUnlocked, IsReturned, returned_kinds, top_is_left_openly, top_is_root, top_monitor};
ghost use Rattle.heap_instructions.specs.Operands.{operands};

use crate::synchronized_calls::reference;
use crate::world::CallWorld;
use continuation::Mounted;
use heap_instructions::{kept, push_value, slots_of, value_operand};
use instruction_rows::Value;
use link_model::{MethodInfo, is_initializer, is_synchronized};
use opcodes::ValueKind;

/// What became of a return.
#[derive(Clone, Copy, Debug, PartialEq, Eq)]
pub enum Left {
    /// The frame below is the top one, after its call.
    Returned,
    /// It is from a root frame, and nothing has changed.
    Root,
    /// It is from a frame that holds this monitor, which its thread leaves first, and nothing has changed.
    Holds(u32),
    /// It is from a native frame, and nothing has changed.
    Native,
    /// The definitions have no such return: a look-up has nothing, or what comes back has no room.
    Undefined,
}

/// Whether a return from the top frame is no local instruction.
#[inline(always)]
pub(crate) fn is_left_openly<W: CallWorld>(world: &W, mounted: &Mounted) -> bool
    requires { 0 < length mounted.now.stack.frames }
    ensures { result ≡ top_is_left_openly (W.world world.now) mounted.now.stack.frames }
{
    mounted.depth() == 1 || world.is_open(mounted.top().method)
}

/// What a frame holds that its thread leaves with it (JVMS 2.11.10).
#[derive(Clone, Copy)]
pub(crate) enum Guard {
    /// Nothing.
    Nothing,
    /// This monitor: its method is synchronized.
    Monitor(u32),
    /// Its method is synchronized, and the frame holds no monitor, as no frame does.
    Undefined,
}

// The monitor whose number lies in the last local variable of the frame of a synchronized method. `None`: there is none.
fn held_monitor<W: CallWorld>(world: &W, mounted: &Mounted) -> Option<u32>
    requires { 0 < length mounted.now.stack.frames }
    ensures { result ≡ top_monitor (W.world world.now) mounted.now.stack.frames }
{
    let top = mounted.top();
    let code = world.code(top.method)?;
    if u32::from(code.max_locals) >= top.locals {
        return None;
    }
    reference(mounted.local(code.max_locals))
}

// What the top frame holds, of this method.
fn guard_of<W: CallWorld>(world: &W, method: &MethodInfo, mounted: &Mounted) -> Guard
    requires frame { 0 < length mounted.now.stack.frames }
    requires method { slice_get (W.world world.now).methods (top_method mounted.now.stack.frames)
        ≡ Some method.now }
    ensures { IsGuard (W.world world.now) mounted.now.stack.frames result }
{
    if is_synchronized(method) {
        return match held_monitor(world, mounted) {
            Some(o) => Guard::Monitor(o),
            None => Guard::Undefined,
        };
    }
    Guard::Nothing
}

/// What the top frame holds.
#[inline(never)]
pub(crate) fn top_guard<W: CallWorld>(world: &W, mounted: &Mounted) -> Guard
    requires { 0 < length mounted.now.stack.frames }
    ensures { IsGuard (W.world world.now) mounted.now.stack.frames result }
{
    match world.method(mounted.top().method) {
        Some(method) => guard_of(world, method, mounted),
        None => Guard::Nothing,
    }
}

/// Whether the top frame is a root frame: the bottom frame of its thread, or that of a class initializer.
pub(crate) fn is_root<W: CallWorld>(world: &W, mounted: &Mounted) -> bool
    requires { 0 < length mounted.now.stack.frames }
    ensures { result ≡ top_is_root (W.world world.now) mounted.now.stack.frames }
{
    if mounted.depth() == 1 {
        return true;
    }
    match world.method(mounted.top().method) {
        Some(method) => is_initializer(method),
        None => false,
    }
}

// What a method gives back, as its result keeps it. `None`: the method gives nothing back.
#[inline(always)]
fn returned_value(
    kind: Option<ValueKind>,
    method: &MethodInfo,
    mounted: &Mounted,
) -> Option<Option<Value>>
    requires { HasOperands (returned_kinds kind) 0 (operands mounted.now) }
    ensures { IsBack kind method.now (operands mounted.now) result }
{
    let Some(kind) = kind else {
        return Some(None);
    };
    let value = value_operand(mounted, kind, 0);
    let result = method.signature.result.as_ref()?;
    Some(Some(kept(result, value)))
}

// Pushes what comes back on the operands of the top frame, where it has room: whether it has.
#[inline(always)]
fn push_back(mounted: &mut Mounted, back: Option<Value>) -> bool
    requires { 0 < length mounted.old.stack.frames }
    ensures pushed { HasPushed back mounted.old mounted.new result }
    ensures thread { mounted.new.thread ≡ mounted.old.thread }
{
    mounted.operands_fit();
    let Some(value) = back else {
        return true;
    };
    if mounted.operand_room() < slots_of(value) {
        return false;
    }
    push_value(mounted, value);
    true
}

// The top frame goes on after its call, with what comes back: whether it can.
#[inline(always)]
fn go_on<W: CallWorld>(world: &W, back: Option<Value>, mounted: &mut Mounted) -> bool
    requires { 0 < length mounted.old.stack.frames }
    ensures behind { IsBehind (W.world world.now) back mounted.old mounted.new result }
    ensures thread { mounted.new.thread ≡ mounted.old.thread }
{
    let view = mounted.top();
    let Some(next) = world.next(view.method, view.pc) else {
        return false;
    };
    if !push_back(mounted, back) {
        return false;
    }
    mounted.set_pc(next);
    true
}

// Leaves the top frame for the one below it, which goes on after its call: whether it can.
#[inline(always)]
fn return_to_caller<W: CallWorld>(world: &W, kind: Option<ValueKind>, mounted: &mut Mounted) -> bool
    requires frame { 1 < length mounted.old.stack.frames }
    requires operands { HasOperands (returned_kinds kind) 0 (operands mounted.old) }
    ensures back { IsReturned (W.world world.now) kind mounted.old mounted.new result }
    ensures thread { mounted.new.thread ≡ mounted.old.thread }
{
    let Some(method) = world.method(mounted.top().method) else {
        return false;
    };
    let Some(back) = returned_value(kind, method, mounted) else {
        return false;
    };
    mounted.pop_frame();
    go_on(world, back, mounted)
}

// What becomes of a return from the top frame, which is no local instruction.
#[inline(never)]
fn leave_openly<W: CallWorld>(world: &W, mounted: &Mounted) -> Left
    requires frame { 0 < length mounted.now.stack.frames }
    requires openly { top_is_left_openly (W.world world.now) mounted.now.stack.frames ≡ true }
    ensures { (kind : Option ValueKind)
        → IsLeft (W.world world.now) kind mounted.now mounted.now result }
{
    match top_guard(world, mounted) {
        Guard::Nothing => {
            if is_root(world, mounted) {
                Left::Root
            } else {
                Left::Native
            }
        }
        Guard::Monitor(o) => Left::Holds(o),
        Guard::Undefined => Left::Undefined,
    }
}

// Leaves the top frame, as `leave` does.
#[inline(always)]
fn leave_with<W: CallWorld>(world: &W, kind: Option<ValueKind>, mounted: &mut Mounted) -> Left
    requires frame { 0 < length mounted.old.stack.frames }
    requires operands { HasOperands (returned_kinds kind) 0 (operands mounted.old) }
    ensures left { IsLeft (W.world world.now) kind mounted.old mounted.new result }
    ensures thread { mounted.new.thread ≡ mounted.old.thread }
{
    if is_left_openly(world, mounted) {
        return leave_openly(world, mounted);
    }
    if !return_to_caller(world, kind, mounted) {
        return Left::Undefined;
    }
    Left::Returned
}

/// Leaves the top frame, with a value of a kind or without one: the frame below goes on after its call. Each kind has code of its own, which
/// looks at no kind again.
#[inline(always)]
pub fn leave<W: CallWorld>(world: &W, kind: Option<ValueKind>, mounted: &mut Mounted) -> Left
    requires frame { 0 < length mounted.old.stack.frames }
    requires operands { HasOperands (returned_kinds kind) 0 (operands mounted.old) }
    ensures left { IsLeft (W.world world.now) kind mounted.old mounted.new result }
    ensures thread { mounted.new.thread ≡ mounted.old.thread }
{
    match kind {
        None => leave_with(world, None, mounted),
        Some(ValueKind::Int) => leave_with(world, Some(ValueKind::Int), mounted),
        Some(ValueKind::Long) => leave_with(world, Some(ValueKind::Long), mounted),
        Some(ValueKind::Reference) => leave_with(world, Some(ValueKind::Reference), mounted),
    }
}

/// Leaves the top frame, as `leave` does, where it holds no monitor, or its thread has left that; it may be a native frame.
pub fn return_unlocked<W: CallWorld>(
    world: &W,
    kind: Option<ValueKind>,
    mounted: &mut Mounted,
) -> Left
    requires frame { 0 < length mounted.old.stack.frames }
    requires operands { HasOperands (returned_kinds kind) 0 (operands mounted.old) }
    ensures left { IsLeftUnlocked (W.world world.now) kind mounted.old mounted.new result }
    ensures thread { mounted.new.thread ≡ mounted.old.thread }
{
    if is_root(world, mounted) {
        return Left::Root;
    }
    if !return_to_caller(world, kind, mounted) {
        return Left::Undefined;
    }
    Left::Returned
}
