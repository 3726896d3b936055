//! The instructions on fields, arrays and objects, and divisions by 0, as steps of a thread. Those on monitors ask, or throw.

ghost use Rattle.std.specs.Prelude.{◌<◌, ◌≡◌, length, true, OnOk};
ghost use Rattle.opcodes.specs.declared.op.Op.TheVariants as ops;
ghost use Rattle.instruction_rows.specs.Table.{row};
ghost use Rattle.ref_model.specs.Operands.{FindsOperands};
ghost use Rattle.heap_instructions.specs.Dispatch.{is_on_field, is_plain};
ghost use Rattle.heap_instructions.specs.Operands.{operands};
ghost use Rattle.thread_steps.specs.Asking.{IsProgress, StaysIfAsked};
ghost use Rattle.thread_steps.specs.Concluding.{Steps};
ghost use Rattle.thread_steps.specs.declared.progress.Progress.TheVariants.{Stepped};

use crate::concluding::{conclude, conclude_or_ask};
use crate::parts::Parts;
use crate::progress::Progress;
use crate::world::MachineWorld;
use continuation::Mounted;
use heap_instructions::{enter_monitor, exit_monitor, run_event, run_field, run_plain};
use items::NoMemory;
use link_model::Resolution;
use opcodes::{Instr, Op, Simple};
use std::alloc::Global;

// The step of a thread whose top frame is at an instruction on a field.
#[inline(never)]
fn field_step<W: MachineWorld>(
    world: &W,
    parts: &mut Parts,
    mounted: &mut Mounted,
    instr: &Instr,
    resolution: &Resolution,
) -> Result<(), NoMemory>
    requires field { is_on_field instr.now.op ≡ true }
    requires frame { 0 < length mounted.old.stack.frames }
    requires operands { FindsOperands (W.world world.now) resolution.now (row instr.now.op)
        (operands mounted.old) }
    ensures { OnOk result (Steps (W.world world.now)
        (record { instr = instr.now; resolution = resolution.now })
        parts.old mounted.old.stack.frames parts.new mounted.new.stack.frames) }
{
    mounted.operands_fit();
    let outcome = run_field(
        world,
        &instr.op,
        resolution,
        &mut parts.natives.heap,
        parts.statics.as_mut_slice(),
        mounted,
    );
    mounted.operands_fit();
    conclude(world, parts, mounted, instr.next, outcome)
}

// The step of a thread whose top frame is at one without operands in the code: on an element of an array, an exception, a division by 0.
#[inline(never)]
fn plain_step<W: MachineWorld>(
    world: &W,
    parts: &mut Parts,
    mounted: &mut Mounted,
    instr: &Instr,
    resolution: &Resolution,
) -> Result<(), NoMemory>
    requires plain { is_plain instr.now.op ≡ true }
    requires frame { 0 < length mounted.old.stack.frames }
    requires operands { FindsOperands (W.world world.now) resolution.now (row instr.now.op)
        (operands mounted.old) }
    ensures { OnOk result (Steps (W.world world.now)
        (record { instr = instr.now; resolution = resolution.now })
        parts.old mounted.old.stack.frames parts.new mounted.new.stack.frames) }
{
    mounted.operands_fit();
    let outcome = run_plain(
        world,
        &instr.op,
        resolution,
        &mut parts.natives.heap,
        parts.statics.as_mut_slice(),
        mounted,
    );
    mounted.operands_fit();
    conclude(world, parts, mounted, instr.next, outcome)
}

// The step of a thread whose top frame is at another one.
#[inline(never)]
fn other_step<W: MachineWorld>(
    alloc: Global,
    world: &W,
    parts: &mut Parts,
    mounted: &mut Mounted,
    instr: &Instr,
    resolution: &Resolution,
) -> Result<(), NoMemory>
    requires frame { 0 < length mounted.old.stack.frames }
    requires operands { FindsOperands (W.world world.now) resolution.now (row instr.now.op)
        (operands mounted.old) }
    ensures { OnOk result (Steps (W.world world.now)
        (record { instr = instr.now; resolution = resolution.now })
        parts.old mounted.old.stack.frames parts.new mounted.new.stack.frames) }
{
    mounted.operands_fit();
    let outcome = run_event(
        alloc,
        world,
        &instr.op,
        resolution,
        &mut parts.natives.heap,
        parts.statics.as_mut_slice(),
        mounted,
    )?;
    mounted.operands_fit();
    conclude(world, parts, mounted, instr.next, outcome)
}

// The step of a thread whose top frame is at one without operands in the code. What it asks is written to `progress`.
#[inline(always)]
fn simple_step<W: MachineWorld>(
    world: &W,
    parts: &mut Parts,
    mounted: &mut Mounted,
    progress: &mut Progress,
    instr: &Instr,
    resolution: &Resolution,
    simple: Simple,
) -> Result<(), NoMemory>
    requires nothing { progress.old ≡ Stepped }
    requires simple { instr.now.op ≡ ops.Simple simple }
    requires frame { 0 < length mounted.old.stack.frames }
    requires operands { FindsOperands (W.world world.now) resolution.now (row instr.now.op)
        (operands mounted.old) }
    ensures progress { OnOk result (IsProgress (W.world world.now)
        (record { instr = instr.now; resolution = resolution.now }) progress.new
        parts.old mounted.old.stack.frames parts.new mounted.new.stack.frames) }
    ensures stays { OnOk result (StaysIfAsked progress.new mounted.old mounted.new) }
{
    match simple {
        Simple::MonitorEnter => {
            mounted.operands_fit();
            let outcome = enter_monitor(mounted);
            conclude_or_ask(world, parts, mounted, progress, instr.next, outcome)
        }
        Simple::MonitorExit => {
            mounted.operands_fit();
            let outcome = exit_monitor(mounted);
            conclude_or_ask(world, parts, mounted, progress, instr.next, outcome)
        }
        _ => plain_step(world, parts, mounted, instr, resolution),
    }
}

/// The step of a thread whose top frame is at such an instruction. What it asks is written to `progress`. Instructions on fields and those without
/// operands in the code have functions of their own, since they are short and frequent.
#[inline(always)]
pub(crate) fn event_step<W: MachineWorld>(
    alloc: Global,
    world: &W,
    parts: &mut Parts,
    mounted: &mut Mounted,
    progress: &mut Progress,
    instr: &Instr,
    resolution: &Resolution,
) -> Result<(), NoMemory>
    requires nothing { progress.old ≡ Stepped }
    requires frame { 0 < length mounted.old.stack.frames }
    requires operands { FindsOperands (W.world world.now) resolution.now (row instr.now.op)
        (operands mounted.old) }
    ensures progress { OnOk result (IsProgress (W.world world.now)
        (record { instr = instr.now; resolution = resolution.now }) progress.new
        parts.old mounted.old.stack.frames parts.new mounted.new.stack.frames) }
    ensures stays { OnOk result (StaysIfAsked progress.new mounted.old mounted.new) }
{
    match instr.op {
        Op::GetStatic(_) | Op::PutStatic(_) | Op::GetField(_) | Op::PutField(_) => {
            field_step(world, parts, mounted, instr, resolution)
        }
        Op::Simple(simple) => {
            simple_step(world, parts, mounted, progress, instr, resolution, simple)
        }
        _ => other_step(alloc, world, parts, mounted, instr, resolution),
    }
}
