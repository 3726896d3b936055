//! The state that the types of a frame mean (JVMS 4.10.1.6).

ghost use Rattle.std.specs.Prelude.{◌≡◌, ◌++◌, IfOk, OnOk, map};
ghost use Rattle.std.specs.List.{list_any};
ghost use Rattle.instruction_rows.specs.Contents.{slot_types, types_of};
ghost use Rattle.verify_types.specs.ClassTypes as types;
ghost use Rattle.verify_types.specs.Environment as spec;
ghost use Rattle.verify_types.specs.TypeStates.{is_this, padded};
ghost use Rattle.verify_instructions.specs.Views.{state_in};
ghost use Rattle.verify_frames.specs.FramePaths.{state_where};

use class_model::ACC_STATIC;
use descriptors::Kind;
use instruction_rows::is_wide;
use items::{Items, NoMemory};
use link_model::{Lookups, MethodInfo};
use stack_maps::{FrameTypes, VType};
use std::alloc::{AllocError, Global};
use verify_instructions::{State, Types, is_constructor};
use verify_types::type_of_kind;

// The receiver of a method of instances.
fn receiver_type<L: Lookups>(w: &L, m: &MethodInfo) -> VType
    ensures { result ≡ spec.receiver_type (L.world w.now) m.now }
{
    if is_constructor(m) && w.object() != Some(m.class) {
        VType::UninitThis
    } else {
        w.class_type(m.class)
    }
}

// The type of the receiver, if there is one.
fn receiver_types<L: Lookups>(alloc: Global, w: &L, m: &MethodInfo) -> Result<Vec<VType>, NoMemory>
    ensures { IfOk result (λ v. v.items ≡ spec.receiver_types (L.world w.now) m.now) }
{
    let mut types = Vec::new(alloc);
    if m.flags & ACC_STATIC != ACC_STATIC {
        types.push(receiver_type(w, m))?;
    }
    Ok(types)
}

// The types of the arguments.
fn argument_types<L: Lookups>(alloc: Global, w: &L, args: &[Kind]) -> Result<Vec<VType>, AllocError>
    ensures { IfOk result (λ v. v.items ≡ map (types.type_of_kind (L.world w.now)) args.now) }
{
    args.iter().map(|kind| type_of_kind(w, kind)).collect(alloc)
}

/// The types with which a method begins, one for the receiver and one for each argument.
pub fn first_frame<L: Lookups>(alloc: Global, w: &L, m: &MethodInfo) -> Result<FrameTypes, NoMemory>
    ensures { IfOk result (λ f. f ≡ spec.first_frame (L.world w.now) m.now) }
{
    let mut locals = receiver_types(alloc, w, m)?;
    let arguments = argument_types(alloc, w, &m.signature.args)?;
    locals.extend_from_slice(&arguments)?;
    Ok(FrameTypes {
        locals: Items::from(locals),
        stack: Items::new(alloc),
    })
}

// Appends a type, and after a wide one the type of its second slot.
fn push_slots(slots: &mut Vec<VType>, t: VType) -> Result<(), AllocError>
    ensures { OnOk result (slots.new.items ≡ slots.old.items ++ types_of t) }
{
    slots.push(t)?;
    if is_wide(t) {
        slots.push(VType::Top)?;
    }
    Ok(())
}

/// The types slot by slot.
pub fn slots(alloc: Global, types: &[VType]) -> Result<Vec<VType>, AllocError>
    ensures { IfOk result (λ v. v.items ≡ slot_types types.now) }
{
    let mut slots = Vec::with_capacity(alloc, types.len())?;
    let mut rest = types;
    while let Some((t, behind)) = rest.split_first() {
        push_slots(&mut slots, *t)?;
        rest = behind;
    }
    Ok(slots)
}

// The local variables slot by slot, the unset ones after them.
fn local_slots(alloc: Global, max_locals: u16, types: &[VType]) -> Result<Vec<VType>, NoMemory>
    ensures { IfOk result (λ v. v.items ≡ padded max_locals (slot_types types.now)) }
{
    let mut slots = slots(alloc, types)?;
    if slots.len() < usize::from(max_locals) {
        slots.resize(usize::from(max_locals), VType::Top)?;
    }
    Ok(slots)
}

// Whether one of the types is that of an object whose constructor runs.
fn has_this(types: &[VType]) -> bool
    ensures { result ≡ list_any is_this types.now }
{
    types.iter().any(|t| matches!(*t, VType::UninitThis))
}

/// The state that the types of a frame mean, in a constructor or not.
pub fn state_where(
    alloc: Global,
    is_constructor: bool,
    max_locals: u16,
    frame: &FrameTypes,
) -> Result<State, NoMemory>
    ensures { IfOk result (λ s. state_in s ≡
        state_where is_constructor max_locals frame.now) }
{
    let locals = local_slots(alloc, max_locals, &frame.locals)?;
    let stack = slots(alloc, &frame.stack)?;
    Ok(State {
        types: Types::new(alloc, locals, stack)?,
        this_uninit: is_constructor && has_this(&frame.locals),
    })
}

/// The state that the types of a frame mean in the code of a method.
pub fn state_of(
    alloc: Global,
    m: &MethodInfo,
    max_locals: u16,
    frame: &FrameTypes,
) -> Result<State, NoMemory>
    ensures { IfOk result (λ s. state_in s ≡ spec.state_of m.now max_locals frame.now) }
{
    state_where(alloc, is_constructor(m), max_locals, frame)
}
