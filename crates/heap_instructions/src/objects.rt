//! Objects and their classes (JVMS 6.5: new, checkcast, instanceof, athrow).

ghost use Rattle.std.specs.Prelude.{◌≡◌, ◌-◌, ◌∷◌, [], IfOk, OnErr, length, nat_le};
ghost use Rattle.opcodes.specs.declared.op.ValueKind.TheVariants as kinds;
ghost use Rattle.ref_model.specs.Fetch as fetch;
ghost use Rattle.ref_model.specs.Heap.{cells_of_values};
ghost use Rattle.ref_model.specs.Instances as spec;
ghost use Rattle.ref_model.specs.Operands.{HasOperands};
ghost use Rattle.heap_instructions.specs.Operands.{HasTop, ChangesOperands, operands};
ghost use Rattle.heap_instructions.specs.Outcomes.{Acts, ActsAlone, KeptUnlessDone, with_heap};

use crate::makers::make_object;
use crate::operands::{give, push_value, reference_operand};
use crate::outcome::Outcome;
use crate::reads::class_number;
use crate::world::EventWorld;
use continuation::Mounted;
use heap_objs::Heap;
use instruction_rows::Value;
use items::NoMemory;
use link_model::{Resolution, Site};
use ref_model::Exception;

// The class that an instruction names.
#[inline(always)]
pub(crate) fn class_of(resolution: &Resolution) -> Option<u32>
    ensures { result ≡ fetch.class_of resolution.now.site }
{
    match resolution.site {
        Site::Class(n) => Some(n),
        _ => None,
    }
}

/// checkcast. The operand stays where it is.
#[inline(never)]
pub fn check_cast<W: EventWorld>(
    world: &W,
    resolution: &Resolution,
    heap: &Heap,
    mounted: &Mounted,
) -> Outcome
    requires { HasOperands (kinds.Reference ∷ []) 0 (operands mounted.now) }
    ensures { Acts (spec.object_cast (W.world world.now) resolution.now)
        (with_heap heap.now) mounted.now (with_heap heap.now) mounted.now result }
{
    let Some(class) = class_of(resolution) else {
        return Outcome::Undefined;
    };
    let Some(o) = reference_operand(mounted, 0) else {
        return Outcome::Done;
    };
    match class_number(world, heap, o) {
        Some(own) if world.is_sub(own, class) => Outcome::Done,
        Some(_) => Outcome::Throws(Exception::ClassCastException),
        None => Outcome::Undefined,
    }
}

/// instanceof.
#[inline(never)]
pub fn instance_of<W: EventWorld>(
    world: &W,
    resolution: &Resolution,
    heap: &Heap,
    mounted: &mut Mounted,
) -> Outcome
    requires top { HasTop mounted.old }
    requires operands { HasOperands (kinds.Reference ∷ []) 0 (operands mounted.old) }
    ensures effect { Acts (spec.object_judged (W.world world.now) resolution.now)
        (with_heap heap.now) mounted.old (with_heap heap.now) mounted.new result }
    ensures kept { KeptUnlessDone result mounted.old mounted.new }
    ensures only { ChangesOperands mounted.old mounted.new }
{
    let Some(class) = class_of(resolution) else {
        return Outcome::Undefined;
    };
    let Some(o) = reference_operand(mounted, 0) else {
        return give(mounted, 1, Value::Int(0));
    };
    match class_number(world, heap, o) {
        Some(own) => give(mounted, 1, Value::Int(i32::from(world.is_sub(own, class)))),
        None => Outcome::Undefined,
    }
}

/// athrow.
#[inline(always)]
pub fn throw_object(mounted: &Mounted) -> Outcome
    requires { HasOperands (kinds.Reference ∷ []) 0 (operands mounted.now) }
    ensures { ActsAlone spec.object_thrown mounted.now result }
{
    match reference_operand(mounted, 0) {
        Some(o) => Outcome::ThrowsObject(o),
        None => Outcome::Throws(Exception::NullPointerException),
    }
}

// Whether one more object with these values has room in the heap.
fn has_room(heap: &Heap, values: &[Value]) -> bool
    ensures { result
        ≡ nat_le (cells_of_values (length values.now)) (heap.now.cells - heap.now.used) }
{
    1 + values.len() <= heap.room() as usize
}

/// new: an object whose fields have their first values. A full heap comes before a full operand stack.
#[inline(always)]
pub fn new_object<W: EventWorld>(
    world: &W,
    resolution: &Resolution,
    heap: &mut Heap,
    mounted: &mut Mounted,
) -> Result<Outcome, NoMemory>
    requires { HasTop mounted.old }
    ensures effect { IfOk result (λ o. Acts (spec.object_made (W.world world.now) resolution.now)
        (with_heap heap.old) mounted.old (with_heap heap.new) mounted.new o) }
    ensures kept { IfOk result (λ o. KeptUnlessDone o mounted.old mounted.new) }
    ensures kept_heap { IfOk result (λ o. KeptUnlessDone o heap.old heap.new) }
    ensures only { ChangesOperands mounted.old mounted.new }
    ensures err { OnErr result (heap.new ≡ heap.old) }
    ensures err_mounted { OnErr result (mounted.new ≡ mounted.old) }
{
    let Some(class) = class_of(resolution) else {
        return Ok(Outcome::Undefined);
    };
    let values = world.new_values(class);
    if mounted.operand_room() == 0 {
        if has_room(heap, values) {
            return Ok(Outcome::Undefined);
        }
        return Ok(Outcome::Throws(Exception::OutOfMemoryError));
    }
    match make_object(heap, class, values)? {
        Some(o) => {
            push_value(mounted, Value::Ref(o));
            Ok(Outcome::Done)
        }
        None => Ok(Outcome::Throws(Exception::OutOfMemoryError)),
    }
}
