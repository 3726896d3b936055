//! Fields (JVMS 6.5: getstatic, putstatic, getfield, putfield). Null is tested first, and then the class of the object.

ghost use Rattle.std.specs.Prelude.{◌≡◌, ◌≤◌, ◌∷◌, [], length};
ghost use Rattle.opcodes.specs.declared.op.ValueKind.TheVariants as kinds;
ghost use Rattle.ref_model.specs.Effects as effects;
ghost use Rattle.ref_model.specs.Fetch as fetch;
ghost use Rattle.ref_model.specs.Fields as spec;
ghost use Rattle.ref_model.specs.Kinds as model;
ghost use Rattle.ref_model.specs.Operands as taken;
ghost use Rattle.ref_model.specs.Operands.{HasOperand, HasOperands, stored_above};
ghost use Rattle.heap_instructions.specs.HeapReads.{IsPut, IsTarget};
ghost use Rattle.heap_instructions.specs.Operands.{HasTop, ChangesOperands, IsStored, operands};
ghost use Rattle.heap_instructions.specs.Outcomes.{Acts, KeptUnlessDone, with_heap, with_statics};

use crate::kinds::{kept, value_kind};
use crate::operands::{drop_operands, give, reference_operand, value_operand, width};
use crate::outcome::Outcome;
use crate::reads::{class_number, set_value, value_in};
use crate::world::EventWorld;
use continuation::Mounted;
use heap_objs::Heap;
use instruction_rows::Value;
use link_model::{FieldInfo, Resolution, Site};
use ref_model::Exception;

// The number of the field that an instruction names.
#[inline(always)]
fn field_of(resolution: &Resolution) -> Option<u32>
    ensures { result ≡ fetch.field_of resolution.now.site }
{
    match resolution.site {
        Site::Field(n) => Some(n),
        _ => None,
    }
}

/// getstatic.
#[inline(always)]
pub fn get_static<W: EventWorld>(
    world: &W,
    resolution: &Resolution,
    statics: &[Value],
    mounted: &mut Mounted,
) -> Outcome
    requires { HasTop mounted.old }
    ensures effect { Acts (spec.static_gotten (W.world world.now) resolution.now)
        (with_statics statics.now) mounted.old (with_statics statics.now) mounted.new result }
    ensures kept { KeptUnlessDone result mounted.old mounted.new }
    ensures only { ChangesOperands mounted.old mounted.new }
{
    let Some(n) = field_of(resolution) else {
        return Outcome::Undefined;
    };
    match statics.get(world.static_place(n) as usize) {
        Some(value) => give(mounted, 0, *value),
        None => Outcome::Undefined,
    }
}

// The value that a store into a field takes, as the field keeps it.
#[inline(always)]
fn stored(field: &FieldInfo, mounted: &Mounted) -> Value
    requires { HasOperand (model.value_kind field.now.kind) 0 (operands mounted.now) }
    ensures stored { IsStored field.now result (operands mounted.now) }
    ensures within { taken.width (model.value_kind field.now.kind)
        ≤ length (operands mounted.now) }
{
    kept(
        &field.kind,
        value_operand(mounted, value_kind(&field.kind), 0),
    )
}

// Sets the value at a place, where there is one: whether there is.
#[inline(always)]
fn set_static(statics: &mut [Value], place: u32, value: Value) -> bool
    ensures { IsPut place value statics.old statics.new result }
{
    if place as usize >= statics.len() {
        return false;
    }
    statics[place as usize] = value;
    true
}

/// putstatic.
#[inline(always)]
pub fn put_static<W: EventWorld>(
    world: &W,
    resolution: &Resolution,
    statics: &mut [Value],
    mounted: &mut Mounted,
) -> Outcome
    requires top { HasTop mounted.old }
    requires operands { HasOperands (stored_above [] (W.world world.now) resolution.now) 0
        (operands mounted.old) }
    ensures effect { Acts (spec.static_put (W.world world.now) resolution.now)
        (with_statics statics.old) mounted.old (with_statics statics.new) mounted.new result }
    ensures kept { KeptUnlessDone result mounted.old mounted.new }
    ensures kept_statics { KeptUnlessDone result statics.old statics.new }
    ensures only { ChangesOperands mounted.old mounted.new }
{
    let Some(n) = field_of(resolution) else {
        return Outcome::Undefined;
    };
    let Some(field) = world.field(n) else {
        return Outcome::Undefined;
    };
    let value = stored(field, mounted);
    if !set_static(statics, world.static_place(n), value) {
        return Outcome::Undefined;
    }
    drop_operands(mounted, width(value_kind(&field.kind)));
    Outcome::Done
}

/// What is thrown where an object isn't an instance of the class that an instruction names.
#[inline(never)]
pub fn late_failure<W: EventWorld>(world: &W, class: u32) -> Exception
    ensures { result ≡ effects.late_failure (W.world world.now) class }
{
    if world.array_type(class).is_some() || world.is_interface(class) {
        Exception::IncompatibleClassChangeError
    } else {
        Exception::VerifyError
    }
}

// The object of a field instruction, and the place of its field among the object's values.
#[derive(Clone, Copy)]
struct FieldTarget {
    object: u32,
    place: u32,
}

// What a field instruction works on, or what it throws. `None`: that is undefined.
#[inline(always)]
fn field_target<W: EventWorld>(
    world: &W,
    resolution: &Resolution,
    heap: &Heap,
    n: u32,
    reference: Option<u32>,
) -> Option<Result<FieldTarget, Exception>>
    ensures { IsTarget (W.world world.now) resolution.now heap.now n reference result }
{
    let Some(object) = reference else {
        return Some(Err(Exception::NullPointerException));
    };
    let class = class_number(world, heap, object)?;
    let named = resolution.class?;
    if !world.is_sub(class, named) {
        return Some(Err(late_failure(world, named)));
    }
    let place = world.field_place(n)?;
    Some(Ok(FieldTarget { object, place }))
}

/// getfield.
#[inline(always)]
pub fn get_field<W: EventWorld>(
    world: &W,
    resolution: &Resolution,
    heap: &Heap,
    mounted: &mut Mounted,
) -> Outcome
    requires top { HasTop mounted.old }
    requires operands { HasOperands (kinds.Reference ∷ []) 0 (operands mounted.old) }
    ensures effect { Acts (spec.field_gotten (W.world world.now) resolution.now)
        (with_heap heap.now) mounted.old (with_heap heap.now) mounted.new result }
    ensures kept { KeptUnlessDone result mounted.old mounted.new }
    ensures only { ChangesOperands mounted.old mounted.new }
{
    let Some(n) = field_of(resolution) else {
        return Outcome::Undefined;
    };
    let Some(o) = reference_operand(mounted, 0) else {
        return Outcome::Throws(Exception::NullPointerException);
    };
    let Some(class) = class_number(world, heap, o) else {
        return Outcome::Undefined;
    };
    let Some(named) = resolution.class else {
        return Outcome::Undefined;
    };
    if !world.is_sub(class, named) {
        return Outcome::Throws(late_failure(world, named));
    }
    let Some(place) = world.field_place(n) else {
        return Outcome::Undefined;
    };
    match value_in(heap, o, place) {
        Some(value) => give(mounted, 1, value),
        None => Outcome::Undefined,
    }
}

/// putfield.
#[inline(always)]
pub fn put_field<W: EventWorld>(
    world: &W,
    resolution: &Resolution,
    heap: &mut Heap,
    mounted: &mut Mounted,
) -> Outcome
    requires top { HasTop mounted.old }
    requires operands { HasOperands
        (stored_above (kinds.Reference ∷ []) (W.world world.now) resolution.now) 0
        (operands mounted.old) }
    ensures effect { Acts (spec.field_put (W.world world.now) resolution.now)
        (with_heap heap.old) mounted.old (with_heap heap.new) mounted.new result }
    ensures kept { KeptUnlessDone result mounted.old mounted.new }
    ensures kept_heap { KeptUnlessDone result heap.old heap.new }
    ensures only { ChangesOperands mounted.old mounted.new }
{
    let Some(n) = field_of(resolution) else {
        return Outcome::Undefined;
    };
    let Some(field) = world.field(n) else {
        return Outcome::Undefined;
    };
    let width = width(value_kind(&field.kind));
    let value = stored(field, mounted);
    let reference = reference_operand(mounted, width);
    let Some(target) = field_target(world, resolution, heap, n, reference) else {
        return Outcome::Undefined;
    };
    match target {
        Ok(FieldTarget { object, place }) => {
            if !set_value(heap, object, place, value) {
                return Outcome::Undefined;
            }
            drop_operands(mounted, width + 1);
            Outcome::Done
        }
        Err(e) => Outcome::Throws(e),
    }
}
