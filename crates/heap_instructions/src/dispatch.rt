//! The instructions on fields, arrays and objects, and divisions by 0, by what they are (JVMS 6.5).

ghost use Rattle.std.specs.Prelude.{◌≡◌, IfOk, true};
ghost use Rattle.instruction_rows.specs.Table.{row, simple_row, new_array_row};
ghost use Rattle.ref_model.specs.Operands.{FindsOperands};
ghost use Rattle.heap_instructions.specs.Dispatch.{IsHeapRun, IsRun, is_on_field, is_plain};
ghost use Rattle.heap_instructions.specs.Operands.{HasTop, operands};

use crate::arrays::{array_length, array_load, array_store, new_array, new_arrays};
use crate::divisions::{divide_ints, divide_longs};
use crate::fields::{get_field, get_static, put_field, put_static};
use crate::monitors::{enter_monitor, exit_monitor};
use crate::objects::{check_cast, instance_of, new_object, throw_object};
use crate::outcome::Outcome;
use crate::world::EventWorld;
use continuation::Mounted;
use heap_objs::Heap;
use instruction_rows::Value;
use items::NoMemory;
use link_model::Resolution;
use link_rules::is_floating_primitive;
use opcodes::{Op, Primitive, Simple};
use std::alloc::Global;

// An instruction without operands in the code.
#[inline(always)]
fn run_simple<W: EventWorld>(
    world: &W,
    simple: Simple,
    resolution: &Resolution,
    heap: &mut Heap,
    statics: &mut [Value],
    mounted: &mut Mounted,
) -> Outcome
    requires top { HasTop mounted.old }
    requires operands { FindsOperands (W.world world.now) resolution.now (simple_row simple)
        (operands mounted.old) }
    ensures { IsRun (W.world world.now) resolution.now (simple_row simple)
        heap.old heap.new statics.old statics.new mounted.old mounted.new result }
{
    match simple {
        Simple::ArrayLoad(element) => array_load(world, element, heap, mounted),
        Simple::ArrayStore(element) => array_store(world, element, heap, mounted),
        Simple::ArrayLength => array_length(world, heap, mounted),
        Simple::Throw => throw_object(mounted),
        Simple::MonitorEnter => enter_monitor(mounted),
        Simple::MonitorExit => exit_monitor(mounted),
        Simple::IntBinary(op) => divide_ints(op, mounted),
        Simple::LongBinary(op) => divide_longs(op, mounted),
        _ => Outcome::Undefined,
    }
}

/// An instruction without operands in the code.
#[inline(always)]
pub fn run_plain<W: EventWorld>(
    world: &W,
    op: &Op,
    resolution: &Resolution,
    heap: &mut Heap,
    statics: &mut [Value],
    mounted: &mut Mounted,
) -> Outcome
    requires plain { is_plain op.now ≡ true }
    requires top { HasTop mounted.old }
    requires operands { FindsOperands (W.world world.now) resolution.now (row op.now)
        (operands mounted.old) }
    ensures { IsRun (W.world world.now) resolution.now (row op.now)
        heap.old heap.new statics.old statics.new mounted.old mounted.new result }
{
    match op {
        Op::Simple(simple) => run_simple(world, *simple, resolution, heap, statics, mounted),
        _ => unreachable!(),
    }
}

/// An instruction on a field: getstatic, putstatic, getfield or putfield.
#[inline(always)]
pub fn run_field<W: EventWorld>(
    world: &W,
    op: &Op,
    resolution: &Resolution,
    heap: &mut Heap,
    statics: &mut [Value],
    mounted: &mut Mounted,
) -> Outcome
    requires field { is_on_field op.now ≡ true }
    requires top { HasTop mounted.old }
    requires operands { FindsOperands (W.world world.now) resolution.now (row op.now)
        (operands mounted.old) }
    ensures { IsRun (W.world world.now) resolution.now (row op.now)
        heap.old heap.new statics.old statics.new mounted.old mounted.new result }
{
    match op {
        Op::GetStatic(_) => get_static(world, resolution, statics, mounted),
        Op::PutStatic(_) => put_static(world, resolution, statics, mounted),
        Op::GetField(_) => get_field(world, resolution, heap, mounted),
        Op::PutField(_) => put_field(world, resolution, heap, mounted),
        _ => unreachable!(),
    }
}

// newarray; an array of floats or doubles is refused.
fn new_primitive_array<W: EventWorld>(
    world: &W,
    primitive: Primitive,
    resolution: &Resolution,
    heap: &mut Heap,
    mounted: &mut Mounted,
) -> Result<Outcome, NoMemory>
    requires top { HasTop mounted.old }
    requires operands { FindsOperands (W.world world.now) resolution.now (new_array_row primitive)
        (operands mounted.old) }
    ensures { IfOk result (λ outcome. IsHeapRun (W.world world.now) resolution.now
        (new_array_row primitive) heap.old heap.new mounted.old mounted.new outcome) }
{
    if is_floating_primitive(primitive) {
        return Ok(Outcome::Undefined);
    }
    new_array(world, resolution, heap, mounted)
}

/// An instruction on fields, arrays or objects, or a division by 0, in the thread whose top frame is at it. Every other one is
/// undefined.
#[inline(always)]
pub fn run_event<W: EventWorld>(
    alloc: Global,
    world: &W,
    op: &Op,
    resolution: &Resolution,
    heap: &mut Heap,
    statics: &mut [Value],
    mounted: &mut Mounted,
) -> Result<Outcome, NoMemory>
    requires top { HasTop mounted.old }
    requires operands { FindsOperands (W.world world.now) resolution.now (row op.now)
        (operands mounted.old) }
    ensures { IfOk result (λ outcome. IsRun (W.world world.now) resolution.now (row op.now)
        heap.old heap.new statics.old statics.new mounted.old mounted.new outcome) }
{
    match op {
        Op::Simple(_) => Ok(run_plain(world, op, resolution, heap, statics, mounted)),
        Op::GetStatic(_) | Op::PutStatic(_) | Op::GetField(_) | Op::PutField(_) => {
            Ok(run_field(world, op, resolution, heap, statics, mounted))
        }
        Op::New(_) => new_object(world, resolution, heap, mounted),
        Op::NewArray(primitive) => new_primitive_array(
            world, *primitive, resolution, heap, mounted,
        ),
        Op::ANewArray(_) => new_array(world, resolution, heap, mounted),
        Op::MultiANewArray(_, dimensions) => {
            new_arrays(alloc, world, *dimensions, resolution, heap, mounted)
        }
        Op::CheckCast(_) => Ok(check_cast(world, resolution, heap, mounted)),
        Op::InstanceOf(_) => Ok(instance_of(world, resolution, heap, mounted)),
        _ => Ok(Outcome::Undefined),
    }
}
