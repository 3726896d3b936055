//! Invocations and returns, as steps of a thread.

ghost use Rattle.std.specs.Prelude.{◌≡◌, ◌<◌, ◌≤◌, ℕ, length, OnOk};
ghost use Rattle.instruction_rows.specs.Table.{row};
ghost use Rattle.ref_model.specs.Operands.{FindsArguments, FindsOperands};
ghost use Rattle.heap_instructions.specs.Operands.{operands};
ghost use Rattle.native_methods.specs.Arguments.{native_effect};
ghost use Rattle.invocation.specs.InvocationCache.{AreSelected};
ghost use Rattle.invocation.specs.Targets.{begins};
ghost use Rattle.thread_steps.specs.Asking.{CallProceeds, EffectProceeds, IsProgress, StaysIfAsked};
ghost use Rattle.thread_steps.specs.Concluding.{EffectSteps};
ghost use Rattle.thread_steps.specs.Operands.{FindsNatives};
ghost use Rattle.thread_steps.specs.declared.progress.Progress.TheVariants.{Stepped};

use crate::concluding::{conclude_or_ask, raise};
use crate::parts::Parts;
use crate::progress::Progress;
use crate::world::MachineWorld;
use continuation::Mounted;
use invocation::{Asked, Callee, Entered, InvocationCache, Target, ask_for_monitor, enter, invoke};
use items::NoMemory;
use lib_table::Native;
use link_model::Resolution;
use native_methods::run_native;
use opcodes::Instr;
use std::alloc::Global;

// A native method runs in one step, and the frame goes on at the next instruction, or the method asks something.
#[inline(never)]
fn native_step<W: MachineWorld>(
    alloc: Global,
    world: &W,
    parts: &mut Parts,
    mounted: &mut Mounted,
    progress: &mut Progress,
    next: u32,
    native: Native,
) -> Result<(), NoMemory>
    requires nothing { progress.old ≡ Stepped }
    requires frame { 0 < length mounted.old.stack.frames }
    requires arguments { FindsArguments (W.world world.now) native (operands mounted.old) }
    ensures progress { OnOk result (EffectProceeds (W.world world.now) next
        (λ r depth stack. native_effect (W.world world.now) native r stack) progress.new
        parts.old mounted.old.stack.frames parts.new mounted.new.stack.frames) }
    ensures stays { OnOk result (StaysIfAsked progress.new mounted.old mounted.new) }
{
    mounted.operands_fit();
    let outcome = run_native(alloc, world, native, &mut parts.natives, mounted)?;
    mounted.operands_fit();
    conclude_or_ask(world, parts, mounted, progress, next, outcome)
}

// A method with code begins, or there are too many frames.
#[inline(always)]
fn code_step<W: MachineWorld>(
    world: &W,
    parts: &mut Parts,
    mounted: &mut Mounted,
    callee: Callee,
) -> Result<(), NoMemory>
    requires frame { 0 < length mounted.old.stack.frames }
    requires given { callee.slots ≤ length (operands mounted.old) }
    ensures { OnOk result ((next : ℕ) → EffectSteps (W.world world.now) next
        (λ r depth stack. begins depth callee stack)
        parts.old mounted.old.stack.frames parts.new mounted.new.stack.frames) }
{
    match enter(callee, mounted)? {
        Entered::Begun => Ok(()),
        Entered::Throws(exception) => raise(world, parts, exception),
        Entered::Undefined => Err(NoMemory),
    }
}

// A synchronized method asks for its monitor, or there are too many frames.
#[inline(never)]
fn synchronized_step<W: MachineWorld>(
    world: &W,
    parts: &mut Parts,
    mounted: &Mounted,
    progress: &mut Progress,
    callee: Callee,
) -> Result<(), NoMemory>
    requires nothing { progress.old ≡ Stepped }
    requires given { callee.slots ≤ length (operands mounted.now) }
    ensures { OnOk result (CallProceeds (W.world world.now) callee progress.new mounted.now
        parts.old parts.new) }
{
    match ask_for_monitor(world, mounted, callee)? {
        Asked::Calls(call) => {
            *progress = Progress::Calls(call);
            Ok(())
        }
        Asked::Throws(exception) => raise(world, parts, exception),
    }
}

/// The step of a thread whose top frame is at an invocation. What it asks is written to `progress`.
#[inline(always)]
pub(crate) fn invocation_step<W: MachineWorld>(
    alloc: Global,
    world: &W,
    cache: &mut InvocationCache,
    parts: &mut Parts,
    mounted: &mut Mounted,
    progress: &mut Progress,
    instr: &Instr,
    resolution: &Resolution,
) -> Result<(), NoMemory>
    requires nothing { progress.old ≡ Stepped }
    requires frame { 0 < length mounted.old.stack.frames }
    requires operands { FindsOperands (W.world world.now) resolution.now (row instr.now.op)
        (operands mounted.old) }
    requires natives { FindsNatives (W.world world.now) resolution.now (row instr.now.op)
        parts.old.natives.heap mounted.old }
    requires selected { AreSelected (W.world world.now) cache.old }
    ensures progress { OnOk result (IsProgress (W.world world.now)
        (record { instr = instr.now; resolution = resolution.now }) progress.new
        parts.old mounted.old.stack.frames parts.new mounted.new.stack.frames) }
    ensures stays { OnOk result (StaysIfAsked progress.new mounted.old mounted.new) }
    ensures cache { AreSelected (W.world world.now) cache.new }
{
    mounted.operands_fit();
    let target = invoke(
        alloc,
        world,
        cache,
        &instr.op,
        resolution,
        &parts.natives.heap,
        mounted,
    )?;
    match target {
        Target::Native(native) => {
            native_step(alloc, world, parts, mounted, progress, instr.next, native)
        }
        Target::Code(callee) => code_step(world, parts, mounted, callee),
        Target::Pins(callee) => code_step(world, parts, mounted, callee),
        Target::Synchronized(callee) => synchronized_step(world, parts, mounted, progress, callee),
        Target::Throws(exception) => raise(world, parts, exception),
        Target::Undefined => Err(NoMemory),
    }
}
