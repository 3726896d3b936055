//! The step of a thread that runs, by the instruction at hand.

ghost use Rattle.std.specs.Prelude.{◌≡◌, ◌<◌, length, OnOk};
ghost use Rattle.instruction_rows.specs.Table.{row};
ghost use Rattle.ref_model.specs.Operands.{FindsOperands};
ghost use Rattle.heap_instructions.specs.Operands.{operands};
ghost use Rattle.invocation.specs.InvocationCache.{AreSelected};
ghost use Rattle.thread_steps.specs.Asking.{IsProgress, StaysIfAsked};
ghost use Rattle.thread_steps.specs.Operands.{FindsNatives};
ghost use Rattle.thread_steps.specs.declared.progress.Progress.TheVariants.{Stepped};

use crate::calls::invocation_step;
use crate::events::event_step;
use crate::parts::Parts;
use crate::progress::Progress;
use crate::returns::{return_at, return_step};
use crate::world::MachineWorld;
use continuation::Mounted;
use invocation::InvocationCache;
use items::NoMemory;
use link_model::Resolution;
use opcodes::{Instr, Op};
use std::alloc::Global;

/// The step of a thread whose top frame is at this instruction, which isn't one that stays in its frame. What it asks is written to `progress`,
/// so that the result is small.
#[inline(always)]
pub fn instruction_step<W: MachineWorld>(
    alloc: Global,
    world: &W,
    cache: &mut InvocationCache,
    parts: &mut Parts,
    mounted: &mut Mounted,
    progress: &mut Progress,
    instr: &Instr,
    resolution: &Resolution,
) -> Result<(), NoMemory>
    requires nothing { progress.old ≡ Stepped }
    requires frame { 0 < length mounted.old.stack.frames }
    requires operands { FindsOperands (W.world world.now) resolution.now (row instr.now.op)
        (operands mounted.old) }
    requires natives { FindsNatives (W.world world.now) resolution.now (row instr.now.op)
        parts.old.natives.heap mounted.old }
    requires selected { AreSelected (W.world world.now) cache.old }
    ensures progress { OnOk result (IsProgress (W.world world.now)
        (record { instr = instr.now; resolution = resolution.now }) progress.new
        parts.old mounted.old.stack.frames parts.new mounted.new.stack.frames) }
    ensures stays { OnOk result (StaysIfAsked progress.new mounted.old mounted.new) }
    ensures cache { AreSelected (W.world world.now) cache.new }
{
    if let Some(returns) = return_at(&instr.op) {
        return return_step(world, parts, mounted, progress, returns.kind);
    }
    match instr.op {
        Op::InvokeVirtual(_)
        | Op::InvokeSpecial(_)
        | Op::InvokeStatic(_)
        | Op::InvokeInterface(_, _) => {
            invocation_step(
                alloc, world, cache, parts, mounted, progress, instr, resolution,
            )
        }
        _ => event_step(alloc, world, parts, mounted, progress, instr, resolution),
    }
}
