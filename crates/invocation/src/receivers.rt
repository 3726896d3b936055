//! The receivers of invocations: the objects on which they are.

ghost use Rattle.std.specs.Prelude.{IfOk, IfSome};
ghost use Rattle.opcodes.specs.declared.op.ValueKind.TheVariants as kinds;
ghost use Rattle.ref_model.specs.Operands.{HasOperand};
ghost use Rattle.invocation.specs.Natives.{HasReceiver};
ghost use Rattle.invocation.specs.Receivers.{IsReceiver};
ghost use Rattle.heap_instructions.specs.Operands.{operands};

use crate::world::CallWorld;
use continuation::Mounted;
use heap_instructions::{class_number, reference_operand};
use heap_objs::Heap;
use link_model::Resolution;
use ref_model::Exception;

/// The class of a receiver, and the class that the instruction names.
#[derive(Clone, Copy, PartialEq, Eq)]
pub(crate) struct Receiver {
    pub(crate) class: u32,
    pub(crate) named: u32,
}

/// The receiver of an invocation, which lies below so many slots, or what is thrown. `None`: a look-up has nothing.
#[inline(always)]
pub(crate) fn receiver_of<W: CallWorld>(
    world: &W,
    resolution: &Resolution,
    slots: u16,
    heap: &Heap,
    mounted: &Mounted,
) -> Option<Result<Receiver, Exception>>
    requires { HasOperand kinds.Reference slots (operands mounted.now) }
    ensures receiver { IsReceiver (W.world world.now) resolution.now slots
        heap.now mounted.now result }
    ensures has { IfSome result (λ found. IfOk found
        (HasReceiver (W.world world.now) resolution.now slots heap.now mounted.now)) }
{
    let Some(o) = reference_operand(mounted, slots) else {
        return Some(Err(Exception::NullPointerException));
    };
    let class = class_number(world, heap, o)?;
    let named = resolution.class?;
    Some(Ok(Receiver { class, named }))
}
