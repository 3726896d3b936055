//! What the outcome of an instruction makes of the thread that had it.

ghost use Rattle.std.specs.Prelude.{◌≡◌, IfOk, OnOk};
ghost use Rattle.thread_steps.specs.Asking.{Proceeds};
ghost use Rattle.thread_steps.specs.Concluding.{Concludes, EndsOtherwise, IsExceptionMade, Raises};
ghost use Rattle.thread_steps.specs.declared.progress.Progress.TheVariants.{Stepped};

use crate::parts::Parts;
use crate::progress::{PendingRequest, Progress};
use crate::world::MachineWorld;
use continuation::Mounted;
use heap_instructions::{Outcome, make_object};
use heap_objs::Heap;
use items::NoMemory;
use link_model::OUT_OF_MEMORY;
use ref_model::Exception;
use vthread_state::{Phase, Status};

/// A new exception of the machine: an object without a message, or the OutOfMemoryError of the start if there is no room for it.
pub(crate) fn make_exception<W: MachineWorld>(
    world: &W,
    heap: &mut Heap,
    exception: Exception,
) -> Result<u32, NoMemory>
    ensures { IfOk result (IsExceptionMade (W.world world.now) exception heap.old heap.new) }
{
    let Some(class) = world.exception_class(exception) else {
        return Err(NoMemory);
    };
    let made = make_object(heap, class, world.new_values(class))?;
    Ok(made.unwrap_or(OUT_OF_MEMORY))
}

/// Throws a new exception of the machine.
#[inline(never)]
pub fn raise<W: MachineWorld>(
    world: &W,
    parts: &mut Parts,
    exception: Exception,
) -> Result<(), NoMemory>
    ensures { OnOk result (Raises (W.world world.now) exception parts.old parts.new) }
{
    let o = make_exception(world, &mut parts.natives.heap, exception)?;
    parts.status = Status::Live(Phase::Throwing(o));
    Ok(())
}

// What an outcome makes of the thread that had it, where it isn't done and asks nothing.
#[inline(always)]
fn conclude_otherwise<W: MachineWorld>(
    world: &W,
    parts: &mut Parts,
    outcome: Outcome,
) -> Result<(), NoMemory>
    ensures { OnOk result (EndsOtherwise (W.world world.now) outcome parts.old parts.new) }
{
    match outcome {
        Outcome::Throws(exception) => raise(world, parts, exception),
        Outcome::ThrowsObject(o) => {
            parts.status = Status::Live(Phase::Throwing(o));
            Ok(())
        }
        Outcome::Done | Outcome::Asks { .. } | Outcome::Undefined => Err(NoMemory),
    }
}

/// What an outcome that asks nothing makes of the thread that had it, whose next instruction is at a pc.
#[inline(always)]
pub(crate) fn conclude<W: MachineWorld>(
    world: &W,
    parts: &mut Parts,
    mounted: &mut Mounted,
    next: u32,
    outcome: Outcome,
) -> Result<(), NoMemory>
    ensures { OnOk result (Concludes (W.world world.now) next outcome
        parts.old mounted.old.stack.frames parts.new mounted.new.stack.frames) }
{
    match outcome {
        Outcome::Done => {
            mounted.set_pc(next);
            Ok(())
        }
        other => conclude_otherwise(world, parts, other),
    }
}

/// What any outcome makes of the thread that had it. What it asks is written to `progress`.
pub(crate) fn conclude_or_ask<W: MachineWorld>(
    world: &W,
    parts: &mut Parts,
    mounted: &mut Mounted,
    progress: &mut Progress,
    next: u32,
    outcome: Outcome,
) -> Result<(), NoMemory>
    requires { progress.old ≡ Stepped }
    ensures { OnOk result (Proceeds (W.world world.now) next outcome progress.new
        parts.old mounted.old parts.new mounted.new) }
{
    match outcome {
        Outcome::Asks { request, operands } => {
            *progress = Progress::Asks(PendingRequest {
                request,
                next,
                operands,
            });
            Ok(())
        }
        other => conclude(world, parts, mounted, next, other),
    }
}
