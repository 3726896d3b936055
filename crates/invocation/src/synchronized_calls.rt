//! Calls of synchronized methods, which begin when their thread has the monitor (JVMS 2.11.10).

ghost use Rattle.std.specs.Prelude.{◌≡◌, ◌<◌, ◌≤◌, IfOk, IfSome, OnOk, Some, length};
ghost use Rattle.ref_model.specs.Monitors.{class_monitor, method_monitor, reference_in};
ghost use Rattle.invocation.specs.SynchronizedCalls.{IsAsked, IsBegun, receiver_in};
ghost use Rattle.heap_instructions.specs.Operands.{operands};

use crate::entering::push_callee;
use crate::target::Callee;
use crate::world::CallWorld;
use continuation::Mounted;
use frames::MOST_FRAMES;
use instruction_rows::{Slot, Value};
use items::NoMemory;
use link_model::MethodInfo;
use ref_model::Exception;

/// A call of a synchronized method, and the monitor that its thread takes before the method begins: that of the receiver, or of the class.
#[derive(Clone, Copy, Debug, PartialEq, Eq)]
pub struct SynchronizedCall {
    pub callee: Callee,
    pub monitor: u32,
}

/// What a call of a synchronized method comes to.
#[derive(Clone, Copy, Debug, PartialEq, Eq)]
pub enum Asked {
    /// It asks for the monitor.
    Calls(SynchronizedCall),
    /// It throws a new exception: there are 2,048 frames.
    Throws(Exception),
}

/// The number of the monitor of class 0, which no object has (own).
const CLASS_MONITORS: u32 = 0xffff_0000;

/// The monitor of a class, by its number (own). `None`: it isn't a number of 32 bits, as in no linked program.
pub fn class_monitor(class: u32) -> Option<u32>
    ensures { IfSome result (λ o. o ≡ class_monitor class) }
{
    CLASS_MONITORS.checked_add(class)
}

/// The object that a slot refers to. `None`: it refers to none.
pub(crate) fn reference(slot: Slot) -> Option<u32>
    ensures { result ≡ reference_in slot }
{
    match slot {
        Slot::One(Value::Ref(o)) => Some(o),
        _ => None,
    }
}

// The receiver of a method that takes so many slots. `None`: there is none.
fn receiver(mounted: &Mounted, slots: u16) -> Option<u32>
    requires { slots ≤ length (operands mounted.now) }
    ensures { result ≡ receiver_in slots (operands mounted.now) }
{
    if slots == 0 {
        return None;
    }
    reference(mounted.operand(slots - 1))
}

// The monitor that a method holds while it runs. `None`: it has no receiver, or its class no monitor.
fn method_monitor(method: &MethodInfo, mounted: &Mounted, slots: u16) -> Option<u32>
    requires { slots ≤ length (operands mounted.now) }
    ensures { IfSome result (λ o.
        method_monitor method.now (receiver_in slots (operands mounted.now)) ≡ Some o) }
{
    if method.is_static() {
        class_monitor(method.class)
    } else {
        receiver(mounted, slots)
    }
}

/// What a call of a synchronized method comes to. A method that has no monitor, or takes more slots than it has local variables, counts as memory
/// run out; no program that runs has one.
pub fn ask_for_monitor<W: CallWorld>(
    world: &W,
    mounted: &Mounted,
    callee: Callee,
) -> Result<Asked, NoMemory>
    requires { callee.slots ≤ length (operands mounted.now) }
    ensures { IfOk result (IsAsked (W.world world.now) callee mounted.now) }
{
    if mounted.depth() >= MOST_FRAMES {
        return Ok(Asked::Throws(Exception::StackOverflowError));
    }
    if callee.slots > callee.locals {
        return Err(NoMemory);
    }
    let Some(method) = world.method(callee.method) else {
        return Err(NoMemory);
    };
    let Some(monitor) = method_monitor(method, mounted, callee.slots) else {
        return Err(NoMemory);
    };
    Ok(Asked::Calls(SynchronizedCall { callee, monitor }))
}

/// A synchronized method begins, of which the thread has the monitor. Its number lies in one more local variable of the frame, the last. A thread
/// that has 2,048 frames counts as memory run out.
pub fn enter_synchronized(call: SynchronizedCall, mounted: &mut Mounted) -> Result<(), NoMemory>
    requires frame { 0 < length mounted.old.stack.frames }
    requires given { call.callee.slots ≤ length (operands mounted.old) }
    ensures begun { OnOk result (IsBegun call mounted.old mounted.new) }
    ensures thread { mounted.new.thread ≡ mounted.old.thread }
{
    let Callee {
        method,
        slots,
        locals,
        operands,
    } = call.callee;
    if slots > locals {
        return Err(NoMemory);
    }
    match push_callee(mounted, method, u32::from(locals) + 1, operands, slots) {
        Ok(()) => {
            mounted.set_local(locals, Slot::One(Value::Ref(call.monitor)));
            Ok(())
        }
        Err(_) => Err(NoMemory),
    }
}
