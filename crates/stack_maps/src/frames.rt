//! Frames, each by what it changes of the one before (JVMS 4.7.4).

ghost use Rattle.std.specs.Prelude.{◌≡◌, ◌≤◌, ◌<◌, ◌-◌, List, [], ◌∷◌, length, IfOk, IfSome};
ghost use Rattle.byte_reader.specs.Reader.{Reads, map_value};
ghost use Rattle.stack_maps.specs.declared.types.LocalsChange.TheVariants as changes;
ghost use Rattle.stack_maps.specs.declared.types.VType.{VType as OneType};
ghost use Rattle.stack_maps.specs.Changes.{locals_after};
ghost use Rattle.stack_maps.specs.Readers.{append_frame_at, delta_frame, frame_at, full_frame_at, item_frame_at, wide_frame_at};

use crate::error::MapWhy;
use crate::types::{FrameChange, LocalsChange, VType};
use crate::verification_types::{more_types, type_of, types_of};
use byte_reader::{Stop, u1_of, u2_of};
use items::Items;
use std::alloc::{AllocError, Global};

/// A frame after another: its delta, from which its pc follows, and what it changes.
#[derive(Drop)]
pub struct DeltaFrame {
    pub delta: u16,
    pub change: FrameChange,
}

// A frame that changes the locals so, and has an empty stack.
fn with_locals(alloc: Global, delta: u16, locals: LocalsChange) -> DeltaFrame
    ensures { result ≡ record {
      delta = delta;
      change = record { locals = locals; stack = [] };
    } }
{
    let stack = Items::new(alloc);
    let change = FrameChange { locals, stack };
    DeltaFrame { delta, change }
}

// A frame with the same locals, and one item on the stack.
fn with_item(alloc: Global, delta: u16, item: VType) -> Result<DeltaFrame, AllocError>
    ensures { IfOk result (λ f. f ≡ record {
      delta = delta;
      change = record { locals = changes.Same; stack = item ∷ [] };
    }) }
{
    let stack = Items::from(vec![in alloc; item]?);
    let locals = LocalsChange::Same;
    let change = FrameChange { locals, stack };
    Ok(DeltaFrame { delta, change })
}

// A frame with the same locals and one item on the stack, after its delta.
fn item_frame(alloc: Global, delta: u16, bytes: &[u8]) -> Result<(DeltaFrame, &[u8]), Stop<MapWhy>>
    ensures { Reads result (map_value delta_frame (item_frame_at delta) bytes.now) }
{
    let (item, rest) = type_of(bytes)?;
    Ok((with_item(alloc, delta, item)?, rest))
}

// A frame with this many more locals, after its delta.
fn append_frame(
    alloc: Global,
    delta: u16,
    count: u16,
    bytes: &[u8],
) -> Result<(DeltaFrame, &[u8]), Stop<MapWhy>>
    ensures { Reads result (map_value delta_frame (append_frame_at delta count) bytes.now) }
{
    let (added, rest) = more_types(Items::new(alloc), count, bytes)?;
    Ok((with_locals(alloc, delta, LocalsChange::Append(added)), rest))
}

// A frame with locals and a stack of its own, after its delta.
fn full_frame(alloc: Global, delta: u16, bytes: &[u8]) -> Result<(DeltaFrame, &[u8]), Stop<MapWhy>>
    ensures { Reads result (map_value delta_frame (full_frame_at delta) bytes.now) }
{
    let (locals, rest) = types_of(alloc, bytes)?;
    let (stack, rest) = types_of(alloc, rest)?;
    let locals = LocalsChange::Full(locals);
    let change = FrameChange { locals, stack };
    Ok((DeltaFrame { delta, change }, rest))
}

// A frame of a type from 247 on, after its type.
#[tactic(auto, unfolding(crate::specs::Readers::wide_frame_at))]
fn wide_frame(alloc: Global, kind: u8, bytes: &[u8]) -> Result<(DeltaFrame, &[u8]), Stop<MapWhy>>
    requires wide { 247 ≤ kind }
    ensures { Reads result (map_value delta_frame (wide_frame_at kind) bytes.now) }
{
    let (delta, rest) = u2_of(bytes)?;
    match kind {
        // same_locals_1_stack_item_frame_extended
        ..=247 => item_frame(alloc, delta, rest),
        // chop_frame
        248..=250 => {
            let locals = LocalsChange::Chop(251 - kind);
            Ok((with_locals(alloc, delta, locals), rest))
        }
        // same_frame_extended
        251 => Ok((with_locals(alloc, delta, LocalsChange::Same), rest)),
        // append_frame
        252..=254 => append_frame(alloc, delta, u16::from(kind - 251), rest),
        // full_frame
        255 => full_frame(alloc, delta, rest),
    }
}

/// A frame after one with that many locals.
#[tactic(auto, unfolding(crate::specs::Readers::frame_at))]
pub fn frame_of(
    alloc: Global,
    locals: usize,
    bytes: &[u8],
) -> Result<(DeltaFrame, &[u8]), Stop<MapWhy>>
    ensures { Reads result (map_value delta_frame (frame_at locals) bytes.now) }
{
    let (kind, rest) = u1_of(bytes)?;
    match kind {
        // same_frame
        0..=63 => {
            let delta = u16::from(kind);
            Ok((with_locals(alloc, delta, LocalsChange::Same), rest))
        }
        // same_locals_1_stack_item_frame
        64..=127 => {
            let delta = u16::from(kind - 64);
            let (item, rest) = type_of(rest)?;
            Ok((with_item(alloc, delta, item)?, rest))
        }
        128..=246 => Err(Stop::at(bytes, MapWhy::Reserved)),
        248..=250 if locals < usize::from(251 - kind) => Err(Stop::at(bytes, MapWhy::Chop)),
        _ => wide_frame(alloc, kind, rest),
    }
}

impl LocalsChange {
    /// How many locals there are where there were that many before. `None`: more than a `usize` counts.
    pub fn count(&self, before: usize) -> Option<usize>
        ensures { IfSome result (λ n. (locals : List OneType) → before ≡ length locals
            → n ≡ length (locals_after locals self.now)) }
    {
        match self {
            LocalsChange::Same => Some(before),
            LocalsChange::Chop(dropped) => Some(before.saturating_sub(usize::from(*dropped))),
            LocalsChange::Append(added) => before.checked_add(added.len()),
            LocalsChange::Full(locals) => Some(locals.len()),
        }
    }
}
