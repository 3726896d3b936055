//! Exceptions on their way (JVMS 2.10, 6.5: athrow).

ghost use Rattle.std.specs.Prelude.{◌≡◌, ◌<◌, length};
ghost use Rattle.invocation.specs.FrameSteps.{IsAtHandler, IsCaught, IsDropped, IsLeftByThrow};

use crate::returning::{Guard, is_left_openly, is_root, top_guard};
use crate::world::CallWorld;
use continuation::Mounted;
use instruction_rows::{Slot, Value};

/// What became of an exception in the top frame.
#[derive(Clone, Copy, Debug, PartialEq, Eq)]
pub enum Caught {
    /// The frame goes on at its handler.
    Handled,
    /// No handler catches it, and the frame is left.
    Left,
    /// No handler catches it in a root frame, and nothing has changed.
    Uncaught,
    /// No handler catches it in a frame that holds this monitor, which its thread leaves first, and nothing has changed.
    Holds(u32),
    /// The definitions have no such step: the object has no room on the operand stack, or the method of the frame is synchronized, and the
    /// frame holds no monitor, as no frame does.
    Undefined,
}

// The top frame goes on at a handler, with an object alone on its operand stack: whether that has room.
fn go_to_handler(mounted: &mut Mounted, handler: u16, o: u32) -> bool
    requires { 0 < length mounted.old.stack.frames }
    ensures at { IsAtHandler handler o mounted.old mounted.new result }
    ensures thread { mounted.new.thread ≡ mounted.old.thread }
{
    mounted.clear();
    if mounted.operand_room() == 0 {
        return false;
    }
    mounted.push(Slot::One(Value::Ref(o)));
    mounted.set_pc(u32::from(handler));
    true
}

// What becomes of the top frame where no handler catches what is thrown, and others may see that it is left.
#[inline(never)]
fn leave_openly<W: CallWorld>(world: &W, mounted: &mut Mounted) -> Caught
    requires { 0 < length mounted.old.stack.frames }
    ensures left { IsLeftByThrow (W.world world.now) mounted.old mounted.new result }
    ensures thread { mounted.new.thread ≡ mounted.old.thread }
{
    match top_guard(world, mounted) {
        Guard::Nothing => {
            if drop_frame(world, mounted) {
                Caught::Left
            } else {
                Caught::Uncaught
            }
        }
        Guard::Monitor(o) => Caught::Holds(o),
        Guard::Undefined => Caught::Undefined,
    }
}

/// What an object of a class that is thrown makes of the top frame: the first row of its exception table that catches the object leads to a
/// handler; without one the frame is left.
pub fn catch_object<W: CallWorld>(world: &W, class: u32, o: u32, mounted: &mut Mounted) -> Caught
    requires { 0 < length mounted.old.stack.frames }
    ensures caught { IsCaught (W.world world.now) class o mounted.old mounted.new result }
    ensures thread { mounted.new.thread ≡ mounted.old.thread }
{
    let view = mounted.top();
    if let Some(handler) = world.handler(class, view.method, view.pc) {
        if !go_to_handler(mounted, handler, o) {
            return Caught::Undefined;
        }
        return Caught::Handled;
    }
    if is_left_openly(world, mounted) {
        return leave_openly(world, mounted);
    }
    mounted.pop_frame();
    Caught::Left
}

/// Leaves the top frame, in which nothing caught what is thrown, where its thread has left the monitor that the frame holds: whether it is no root
/// frame. Nothing changes where it is one.
pub fn drop_frame<W: CallWorld>(world: &W, mounted: &mut Mounted) -> bool
    requires { 0 < length mounted.old.stack.frames }
    ensures dropped { IsDropped (W.world world.now) mounted.old mounted.new result }
    ensures thread { mounted.new.thread ≡ mounted.old.thread }
{
    if is_root(world, mounted) {
        return false;
    }
    mounted.pop_frame();
    true
}
