//! The types at a frame, of those before it and what it changes.

ghost use Rattle.std.specs.Prelude.{◌≡◌, ◌-◌, ◌++◌, IfOk, length, take};
ghost use Rattle.stack_maps.specs.Changes as spec;

use crate::types::{FrameChange, FrameTypes, LocalsChange, VType};
use items::Items;
use std::alloc::{AllocError, Global};

// A copy of the types.
fn copied(alloc: Global, types: &[VType]) -> Result<Items<VType>, AllocError>
    ensures { IfOk result (λ ts. ts ≡ types.now) }
{
    Ok(Items::from(Vec::from_slice(alloc, types)?))
}

// The types without the last ones.
fn without_last(types: &[VType], dropped: u8) -> &[VType]
    ensures { result.now ≡ take (length types.now - dropped) types.now }
{
    &types[..types.len().saturating_sub(usize::from(dropped))]
}

// The types, and after them those that a frame adds.
fn appended(alloc: Global, before: &[VType], added: &[VType]) -> Result<Items<VType>, AllocError>
    ensures { IfOk result (λ ts. ts ≡ before.now ++ added.now) }
{
    let mut types = Vec::with_capacity(alloc, before.len().saturating_add(added.len()))?;
    types.extend_from_slice(before)?;
    types.extend_from_slice(added)?;
    Ok(Items::from(types))
}

// The locals after a change of these.
fn locals_after(
    alloc: Global,
    before: &[VType],
    change: LocalsChange,
) -> Result<Items<VType>, AllocError>
    ensures { IfOk result (λ ts. ts ≡ spec.locals_after before.now change) }
{
    match change {
        LocalsChange::Same => copied(alloc, before),
        LocalsChange::Chop(dropped) => copied(alloc, without_last(before, dropped)),
        LocalsChange::Append(added) => appended(alloc, before, &added),
        LocalsChange::Full(locals) => Ok(locals),
    }
}

/// The types at a frame after one with these locals.
pub fn types_after(
    alloc: Global,
    before: &[VType],
    change: FrameChange,
) -> Result<FrameTypes, AllocError>
    ensures { IfOk result (λ f. f ≡ spec.types_after before.now change) }
{
    let FrameChange { locals, stack } = change;
    let locals = locals_after(alloc, before, locals)?;
    Ok(FrameTypes { locals, stack })
}

/// The locals at the last of these frames, or those after which the first lies.
pub fn locals_before<'a>(first: &'a [VType], frames: &'a [(u32, FrameTypes)]) -> &'a [VType]
    ensures { result.now ≡ spec.locals_before first.now frames.now }
{
    match frames.last() {
        Some((_, types)) => &types.locals,
        None => first,
    }
}
