//! The frames of a whole stack map (JVMS 4.7.4).

ghost use Rattle.std.specs.Prelude.{◌≡◌, ◌<◌, ◌^◌, ◌↔◌, ◌==◌, ℕ, List, length, slice_index, IfOk, Ok, Err, if◌then◌else◌};
ghost use Rattle.items.specs.Memory.{OkUnless};
ghost use Rattle.byte_reader.specs.Reader.{GivesBy, fault_at};
ghost use Rattle.byte_reader.specs.declared.fault.Stop.TheVariants as stops;
ghost use Rattle.stack_maps.specs.declared.types.FrameTypes.{FrameTypes};
ghost use Rattle.stack_maps.specs.declared.error.MapWhy.{MapWhy};
ghost use Rattle.stack_maps.specs.declared.error.MapWhy.TheVariants as whys;
ghost use Rattle.stack_maps.specs.declared.error.MapError.TheVariants as errors;
ghost use Rattle.stack_maps.specs.Changes.{made_whole};
ghost use Rattle.stack_maps.specs.Readers as spec;
ghost use Rattle.stack_maps.specs.Expansion.{Expands, expansion, error_of as spec_error_of};

use crate::error::{MapError, MapWhy};
use crate::frames::frame_of;
use crate::types::{FrameChange, FrameTypes};
use crate::whole::{locals_before, types_after};
use byte_reader::{Stop, u2_of};
use std::alloc::Global;

// That many frames, each with its pc.
fn frames_of<'a>(
    alloc: Global,
    first: &FrameTypes,
    count: u16,
    bytes: &'a [u8],
) -> Result<(Vec<(u32, FrameChange)>, &'a [u8]), Stop<MapWhy>>
    ensures { GivesBy (λ x. (x.0.items, x.1.now)) result
        (spec.changes_at first.now count bytes.now) }
{
    let mut frames = Vec::new(alloc);
    let mut locals = first.locals.len();
    let mut rest = bytes;
    let mut next = 0;
    for _ in 0..count {
        let (frame, behind) = frame_of(alloc, locals, rest)?;
        let Some(counted) = frame.change.locals.count(locals) else {
            return Err(Stop::NoMemory);
        };
        let pc = next + u32::from(frame.delta);
        frames.push((pc, frame.change))?;
        locals = counted;
        next = pc + 1;
        rest = behind;
    }
    Ok((frames, rest))
}

// That many frames, each with its pc and all of its types.
fn whole_frames_of<'a>(
    alloc: Global,
    first: &FrameTypes,
    count: u16,
    bytes: &'a [u8],
) -> Result<(Vec<(u32, FrameTypes)>, &'a [u8]), Stop<MapWhy>>
    ensures { GivesBy (λ x. (x.0.items, x.1.now)) result
        (spec.whole_frames_at first.now count bytes.now) }
{
    let mut frames = Vec::new(alloc);
    let mut rest = bytes;
    let mut next = 0;
    for _ in 0..count {
        let before = locals_before(&first.locals, &frames);
        let (frame, behind) = frame_of(alloc, before.len(), rest)?;
        let types = types_after(alloc, before, frame.change)?;
        let pc = next + u32::from(frame.delta);
        frames.push((pc, types))?;
        next = pc + 1;
        rest = behind;
    }
    Ok((frames, rest))
}

// Nothing may follow the last frame.
fn at_end(rest: &[u8]) -> Result<(), Stop<MapWhy>>
    ensures { result ≡
        if length rest.now == 0
        then Ok tt
        else Err (stops.Fault (fault_at rest.now whys.Trailing)) }
{
    if !rest.is_empty() {
        return Err(Stop::at(rest, MapWhy::Trailing));
    }
    Ok(())
}

// A count, that many frames, and no byte more.
#[tactic(auto, unfolding(crate::specs::Readers::changes_of))]
fn changes_of(
    alloc: Global,
    first: &FrameTypes,
    bytes: &[u8],
) -> Result<Vec<(u32, FrameChange)>, Stop<MapWhy>>
    ensures { GivesBy (λ v. v.items) result (spec.changes_of first.now bytes.now) }
{
    let (count, rest) = u2_of(bytes)?;
    let (frames, rest) = frames_of(alloc, first, count, rest)?;
    at_end(rest)?;
    Ok(frames)
}

// A count, that many whole frames, and no byte more.
#[tactic(auto, unfolding(crate::specs::Readers::table_of, crate::specs::Readers::changes_of))]
fn table_of(
    alloc: Global,
    first: &FrameTypes,
    bytes: &[u8],
) -> Result<Vec<(u32, FrameTypes)>, Stop<MapWhy>>
    ensures { GivesBy (λ v. v.items) result (spec.table_of first.now bytes.now) }
{
    let (count, rest) = u2_of(bytes)?;
    let (frames, rest) = whole_frames_of(alloc, first, count, rest)?;
    at_end(rest)?;
    Ok(frames)
}

// Why a map was not expanded, where reading these bytes stopped so.
fn error_of(bytes: &[u8], stop: Stop<MapWhy>) -> MapError
    requires { length bytes.now < 2 ^ 32 }
    ensures { result ≡ spec_error_of bytes.now stop }
{
    match stop {
        Stop::Fault(fault) => MapError::Bad {
            at: fault.offset(bytes),
            why: fault.why,
        },
        Stop::NoMemory => MapError::NoMemory,
    }
}

/// The frames of the body of a StackMapTable, each with its pc and what it changes of the one before, for a method whose
/// code starts with the types `first` (JVMS 4.7.4). They take memory in proportion to the bytes.
pub fn changes(
    alloc: Global,
    first: &FrameTypes,
    bytes: &[u8],
) -> Result<Vec<(u32, FrameChange)>, MapError>
    requires { length bytes.now < 2 ^ 32 }
    // The bytes are a map, and made whole these are its frames.
    ensures found { IfOk result (λ v.
        Expands first.now bytes.now (made_whole first.now.locals v.items)) }
    // Where the bytes are a map its frames are returned.
    ensures only { (frames : List (ℕ × FrameTypes)) → Expands first.now bytes.now frames
        → OkUnless result errors.NoMemory (λ v. made_whole first.now.locals v.items ≡ frames) }
    // A refusal names the first fault from the left, and its offset.
    ensures bad { (at : ℕ) (why : MapWhy) → result ≡ Err (errors.Bad at why)
        → expansion first.now bytes.now ≡ Err (at, why) }
{
    match changes_of(alloc, first, bytes) {
        Ok(frames) => Ok(frames),
        Err(stop) => Err(error_of(bytes, stop)),
    }
}

/// The frames of the body of a StackMapTable, each with its pc and all of its types, for a method
/// whose code starts with the types `first` (JVMS 4.7.4).
pub fn expand(
    alloc: Global,
    first: &FrameTypes,
    bytes: &[u8],
) -> Result<Vec<(u32, FrameTypes)>, MapError>
    requires { length bytes.now < 2 ^ 32 }
    // The bytes are a map, and these are its frames.
    ensures found { IfOk result (λ v. Expands first.now bytes.now v.items) }
    // Where the bytes are a map its frames are returned.
    ensures only { (frames : List (ℕ × FrameTypes)) → Expands first.now bytes.now frames
        → OkUnless result errors.NoMemory (λ v. v.items ≡ frames) }
    // A refusal names the first fault from the left, and its offset.
    ensures bad { (at : ℕ) (why : MapWhy) → result ≡ Err (errors.Bad at why)
        → expansion first.now bytes.now ≡ Err (at, why) }
{
    match table_of(alloc, first, bytes) {
        Ok(frames) => Ok(frames),
        Err(stop) => Err(error_of(bytes, stop)),
    }
}

/// Reading from left to right gives these frames exactly where the bytes are a map that expands
/// to them.
pub fn expansion_is_exact()
    ensures { (first : FrameTypes) (bytes : List ℕ) (whole : List (ℕ × FrameTypes))
        → ((i : ℕ) → slice_index bytes i < 256)
        → (expansion first bytes ≡ Ok whole) ↔ Expands first bytes whole }
{}
