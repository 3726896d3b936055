//! Arrays (JVMS 6.5: arraylength, the loads, the stores, and new arrays). Tests come in this order: null, the kind of the elements, index
//! or length, class of a stored object, room.

ghost use Rattle.std.specs.Prelude.{◌≡◌, ◌<◌, ◌∷◌, [], ℕ, IfOk, IfSome, OnErr, length, replicate};
ghost use Rattle.opcodes.specs.declared.op.ValueKind.TheVariants as kinds;
ghost use Rattle.instruction_rows.specs.Kinds.{kind_of_element};
ghost use Rattle.heap_objs.specs.Heap.{values_at};
ghost use Rattle.ref_model.specs.Arrays as spec;
ghost use Rattle.ref_model.specs.Heap.{Array};
ghost use Rattle.ref_model.specs.Operands.{HasOperands};
ghost use Rattle.heap_instructions.specs.HeapReads.{IsElementTarget, IsHolding};
ghost use Rattle.heap_instructions.specs.Operands.{HasTop, ChangesOperands, operands};
ghost use Rattle.heap_instructions.specs.Outcomes.{Acts, KeptUnlessDone, with_heap};

use crate::array_making::{have_room, ints_on_top, is_any_negative, magnitudes, make_arrays};
use crate::kinds::{element_kind, element_zero, kept_in, serves};
use crate::makers::make_array;
use crate::objects::class_of;
use crate::operands::{
    drop_operands, give, int_operand, push_value, reference_operand, value_operand, width,
};
use crate::outcome::Outcome;
use crate::reads::{ArrayView, array_at, class_number};
use crate::world::EventWorld;
use continuation::Mounted;
use heap_objs::Heap;
use instruction_rows::Value;
use items::NoMemory;
use link_model::{ArrayType, Resolution};
use opcodes::Element;
use ref_model::Exception;
use std::alloc::Global;

/// arraylength.
#[inline(always)]
pub fn array_length<W: EventWorld>(world: &W, heap: &Heap, mounted: &mut Mounted) -> Outcome
    requires top { HasTop mounted.old }
    requires operands { HasOperands (kinds.Reference ∷ []) 0 (operands mounted.old) }
    ensures effect { Acts (spec.length_gotten (W.world world.now))
        (with_heap heap.now) mounted.old (with_heap heap.now) mounted.new result }
    ensures kept { KeptUnlessDone result mounted.old mounted.new }
    ensures only { ChangesOperands mounted.old mounted.new }
{
    let Some(o) = reference_operand(mounted, 0) else {
        return Outcome::Throws(Exception::NullPointerException);
    };
    let Some(array) = array_at(world, heap, o) else {
        return Outcome::Throws(Exception::VerifyError);
    };
    match i32::try_from(array.len) {
        Ok(len) => give(mounted, 1, Value::Int(len)),
        Err(_) => Outcome::Undefined,
    }
}

// The place that an index names in an array of this length.
#[inline(always)]
fn place_in(index: i32, len: u32) -> Option<u32>
    ensures place { (a : Array) → length a.values ≡ len → spec.place_in index a ≡ result }
    ensures inside { IfSome result (λ place. place < len) }
{
    match u32::try_from(index) {
        Ok(place) if place < len => Some(place),
        _ => None,
    }
}

// The array of a load or a store, and the place of its element.
#[derive(Clone, Copy)]
struct ElementTarget {
    object: u32,
    array: ArrayView,
    place: u32,
}

// What a load or a store works on, or what it throws.
#[inline(always)]
fn element_target<W: EventWorld>(
    world: &W,
    element: Element,
    heap: &Heap,
    reference: Option<u32>,
    index: i32,
) -> Result<ElementTarget, Exception>
    ensures target { IsElementTarget (W.world world.now) element heap.now reference index result }
    ensures inside { IfOk result (λ t. t.place < length (values_at heap.now.objects t.object)) }
{
    let Some(object) = reference else {
        return Err(Exception::NullPointerException);
    };
    let Some(array) = array_at(world, heap, object) else {
        return Err(Exception::VerifyError);
    };
    if !serves(element, array.kind) {
        return Err(Exception::VerifyError);
    }
    match place_in(index, array.len) {
        Some(place) => Ok(ElementTarget {
            object,
            array,
            place,
        }),
        None => Err(Exception::ArrayIndexOutOfBoundsException),
    }
}

/// iaload, laload, aaload, baload, caload, saload.
#[inline(always)]
pub fn array_load<W: EventWorld>(
    world: &W,
    element: Element,
    heap: &Heap,
    mounted: &mut Mounted,
) -> Outcome
    requires top { HasTop mounted.old }
    requires operands { HasOperands (kinds.Int ∷ kinds.Reference ∷ []) 0 (operands mounted.old) }
    ensures effect { Acts (spec.array_loaded (W.world world.now) element)
        (with_heap heap.now) mounted.old (with_heap heap.now) mounted.new result }
    ensures kept { KeptUnlessDone result mounted.old mounted.new }
    ensures only { ChangesOperands mounted.old mounted.new }
{
    let index = int_operand(mounted, 0);
    let Some(o) = reference_operand(mounted, 1) else {
        return Outcome::Throws(Exception::NullPointerException);
    };
    let Some(array) = array_at(world, heap, o) else {
        return Outcome::Throws(Exception::VerifyError);
    };
    if !serves(element, array.kind) {
        return Outcome::Throws(Exception::VerifyError);
    }
    match place_in(index, array.len) {
        Some(place) => give(mounted, 2, heap.get(o, place)),
        None => Outcome::Throws(Exception::ArrayIndexOutOfBoundsException),
    }
}

// Whether a value may be an element of an array: of an object its class decides. `None`: there is no such object.
#[inline(always)]
fn may_hold<W: EventWorld>(world: &W, heap: &Heap, kind: ArrayType, value: Value) -> Option<bool>
    ensures { IsHolding (W.world world.now) heap.now kind value result }
{
    match value {
        Value::Ref(o) => {
            let class = class_number(world, heap, o)?;
            Some(world.is_element(class, kind))
        }
        _ => Some(true),
    }
}

/// iastore, lastore, aastore, bastore, castore, sastore.
#[inline(always)]
pub fn array_store<W: EventWorld>(
    world: &W,
    element: Element,
    heap: &mut Heap,
    mounted: &mut Mounted,
) -> Outcome
    requires top { HasTop mounted.old }
    requires operands { HasOperands
        (kind_of_element element ∷ kinds.Int ∷ kinds.Reference ∷ []) 0 (operands mounted.old) }
    ensures effect { Acts (spec.array_stored (W.world world.now) element)
        (with_heap heap.old) mounted.old (with_heap heap.new) mounted.new result }
    ensures kept { KeptUnlessDone result mounted.old mounted.new }
    ensures kept_heap { KeptUnlessDone result heap.old heap.new }
    ensures only { ChangesOperands mounted.old mounted.new }
{
    let kind = element_kind(element);
    let width = width(kind);
    let value = value_operand(mounted, kind, 0);
    let index = int_operand(mounted, width);
    let reference = reference_operand(mounted, width + 1);
    match element_target(world, element, heap, reference, index) {
        Ok(target) => match may_hold(world, heap, target.array.kind, value) {
            Some(true) => {
                heap.set(
                    target.object,
                    target.place,
                    kept_in(target.array.kind, value),
                );
                drop_operands(mounted, width + 2);
                Outcome::Done
            }
            Some(false) => Outcome::Throws(Exception::ArrayStoreException),
            None => Outcome::Undefined,
        },
        Err(e) => Outcome::Throws(e),
    }
}

/// newarray, anewarray: the class is that of the array.
#[inline(never)]
pub fn new_array<W: EventWorld>(
    world: &W,
    resolution: &Resolution,
    heap: &mut Heap,
    mounted: &mut Mounted,
) -> Result<Outcome, NoMemory>
    requires top { HasTop mounted.old }
    requires operands { HasOperands (kinds.Int ∷ []) 0 (operands mounted.old) }
    ensures effect { IfOk result (λ o. Acts (spec.array_made (W.world world.now) resolution.now)
        (with_heap heap.old) mounted.old (with_heap heap.new) mounted.new o) }
    ensures kept { IfOk result (λ o. KeptUnlessDone o mounted.old mounted.new) }
    ensures kept_heap { IfOk result (λ o. KeptUnlessDone o heap.old heap.new) }
    ensures only { ChangesOperands mounted.old mounted.new }
    ensures err { OnErr result (heap.new ≡ heap.old) }
    ensures err_mounted { OnErr result (mounted.new ≡ mounted.old) }
{
    let Some(class) = class_of(resolution) else {
        return Ok(Outcome::Undefined);
    };
    let Some(array) = world.array_type(class) else {
        return Ok(Outcome::Undefined);
    };
    let Ok(len) = u32::try_from(int_operand(mounted, 0)) else {
        return Ok(Outcome::Throws(Exception::NegativeArraySizeException));
    };
    match make_array(heap, class, len, element_zero(array))? {
        Some(o) => {
            drop_operands(mounted, 1);
            push_value(mounted, Value::Ref(o));
            Ok(Outcome::Done)
        }
        None => Ok(Outcome::Throws(Exception::OutOfMemoryError)),
    }
}

/// multianewarray: the class is that of the outer array. Without dimensions, which no class file has, no array is made, and the reference
/// that is pushed is to the next object.
#[inline(never)]
pub fn new_arrays<W: EventWorld>(
    alloc: Global,
    world: &W,
    dimensions: u8,
    resolution: &Resolution,
    heap: &mut Heap,
    mounted: &mut Mounted,
) -> Result<Outcome, NoMemory>
    requires top { HasTop mounted.old }
    requires operands { HasOperands (replicate dimensions kinds.Int) 0 (operands mounted.old) }
    ensures effect { IfOk result (λ o. Acts
        (spec.arrays_made (W.world world.now) dimensions resolution.now)
        (with_heap heap.old) mounted.old (with_heap heap.new) mounted.new o) }
    ensures kept { IfOk result (λ o. KeptUnlessDone o mounted.old mounted.new) }
    ensures kept_heap { IfOk result (λ o. KeptUnlessDone o heap.old heap.new) }
    ensures only { ChangesOperands mounted.old mounted.new }
{
    let Some(class) = class_of(resolution) else {
        return Ok(Outcome::Undefined);
    };
    if u32::from(mounted.operand_room()) + u32::from(dimensions) == 0 {
        return Ok(Outcome::Undefined);
    }
    let ints = ints_on_top(alloc, mounted, dimensions)?;
    if is_any_negative(&ints) {
        return Ok(Outcome::Throws(Exception::NegativeArraySizeException));
    }
    let lengths = magnitudes(alloc, &ints)?;
    if !have_room(heap, &lengths) {
        return Ok(Outcome::Throws(Exception::OutOfMemoryError));
    }
    let Ok(number) = u32::try_from(heap.count()) else {
        return Err(NoMemory);
    };
    make_arrays(alloc, world, heap, class, &lengths)?;
    drop_operands(mounted, u16::from(dimensions));
    push_value(mounted, Value::Ref(number));
    Ok(Outcome::Done)
}
