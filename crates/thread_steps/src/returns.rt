//! Returns, as steps of a thread.

ghost use Rattle.std.specs.Prelude.{◌≡◌, ◌<◌, length, OnOk};
ghost use Rattle.std.specs.Option.{option_map};
ghost use Rattle.instruction_rows.specs.Table.{row as row_of, simple_row};
ghost use Rattle.ref_model.specs.Operands.{HasOperands};
ghost use Rattle.heap_instructions.specs.Operands.{operands};
ghost use Rattle.invocation.specs.FrameSteps.{returned_kinds};
ghost use Rattle.thread_steps.specs.Asking.{ReturnProceeds, StaysIfAsked};
ghost use Rattle.thread_steps.specs.Returning.{LeavesRoot, UnlockedReturns, returned_kind, status_left};
ghost use Rattle.thread_steps.specs.declared.progress.Progress.TheVariants.{Stepped};

use crate::parts::Parts;
use crate::progress::{MonitorReturn, Progress};
use crate::world::MachineWorld;
use continuation::Mounted;
use invocation;
use invocation::{Left, leave};
use items::NoMemory;
use opcodes::{Op, Simple, ValueKind};
use vthread_state::Status;

/// A return, with the kind of what it gives back.
#[derive(Clone, Copy)]
pub struct Return {
    pub kind: Option<ValueKind>,
}

#[inline(always)]
fn simple_return(simple: &Simple) -> Option<Return>
    ensures { option_map (λ r. r.kind) result ≡ returned_kind (simple_row simple.now) }
{
    match simple {
        Simple::Return => Some(Return { kind: None }),
        Simple::ReturnValue(kind) => Some(Return { kind: Some(*kind) }),
        _ => None,
    }
}

/// The return that an instruction is. `None`: it is none.
#[inline(always)]
pub fn return_at(op: &Op) -> Option<Return>
    ensures { option_map (λ r. r.kind) result ≡ returned_kind (row_of op.now) }
{
    match op {
        Op::Simple(simple) => simple_return(simple),
        _ => None,
    }
}

// The status of a thread with this many frames left; it is done when it has none.
fn status_over(depth: u32, status: Status) -> Status
    ensures { result ≡ status_left depth status }
{
    if depth == 0 { Status::Done } else { status }
}

// Leaves a root frame: with the bottom frame the thread is done, and below the frame of a class initializer the next one begins.
fn leave_root(parts: &mut Parts, mounted: &mut Mounted)
    requires { 0 < length mounted.old.stack.frames }
    ensures { LeavesRoot parts.old mounted.old.stack.frames parts.new mounted.new.stack.frames }
{
    mounted.pop_frame();
    parts.status = status_over(mounted.depth(), parts.status);
}

/// The step of a thread whose top frame is at a return. Where it leaves a monitor that is written to `progress`.
#[inline(never)]
pub(crate) fn return_step<W: MachineWorld>(
    world: &W,
    parts: &mut Parts,
    mounted: &mut Mounted,
    progress: &mut Progress,
    kind: Option<ValueKind>,
) -> Result<(), NoMemory>
    requires nothing { progress.old ≡ Stepped }
    requires frame { 0 < length mounted.old.stack.frames }
    requires operands { HasOperands (returned_kinds kind) 0 (operands mounted.old) }
    ensures progress { OnOk result (ReturnProceeds (W.world world.now) kind progress.new
        parts.old mounted.old.stack.frames parts.new mounted.new.stack.frames) }
    ensures stays { OnOk result (StaysIfAsked progress.new mounted.old mounted.new) }
{
    match leave(world, kind, mounted) {
        Left::Returned => Ok(()),
        Left::Root => {
            leave_root(parts, mounted);
            Ok(())
        }
        Left::Holds(monitor) => {
            *progress = Progress::Returns(MonitorReturn { kind, monitor });
            Ok(())
        }
        Left::Native => return_unlocked(world, parts, mounted, kind),
        Left::Undefined => Err(NoMemory),
    }
}

/// The rest of a return from a frame that holds no monitor, or whose thread has left that.
pub fn return_unlocked<W: MachineWorld>(
    world: &W,
    parts: &mut Parts,
    mounted: &mut Mounted,
    kind: Option<ValueKind>,
) -> Result<(), NoMemory>
    requires frame { 0 < length mounted.old.stack.frames }
    requires operands { HasOperands (returned_kinds kind) 0 (operands mounted.old) }
    ensures { OnOk result (UnlockedReturns (W.world world.now) kind
        parts.old mounted.old.stack.frames parts.new mounted.new.stack.frames) }
{
    match invocation::return_unlocked(world, kind, mounted) {
        Left::Returned => Ok(()),
        Left::Root => {
            leave_root(parts, mounted);
            Ok(())
        }
        Left::Holds(_) | Left::Native | Left::Undefined => Err(NoMemory),
    }
}
