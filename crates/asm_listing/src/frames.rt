//! The frames of a stack map, each as its line at its pc (JVMS 4.7.4).

ghost use Rattle.std.specs.Prelude.{◌≡◌, IfOk, OnOk};
ghost use Rattle.asm_listing.specs.Numbers.{Gives, GivesBy, GoesOn, Reads, repeat};
ghost use Rattle.asm_listing.specs.Code as codes;
ghost use Rattle.asm_listing.specs.Frames as spec;

use crate::code::{Found, PlacedLine, ended};
use crate::numbers::{u1_at, u2_at};
use crate::words::{class_at, label_of};
use asm_text::{FrameType, Line, LineError};
use class_model::Const;
use items::Items;
use std::alloc::{AllocError, Global};

/// A type, and the pcs that it names.
#[derive(Drop)]
struct ListedType {
    frame_type: FrameType,
    targets: Items<u16>,
}

/// Types, and the pcs that they name.
#[derive(Drop)]
struct Types {
    types: Items<FrameType>,
    named: Vec<u16>,
}

/// The line of a frame, and the pcs that it names.
#[derive(Drop)]
struct ListedFrame {
    frame: PlacedLine,
    named: Vec<u16>,
}

fn plain_type(alloc: Global, frame_type: FrameType) -> ListedType
    ensures { result ≡ spec.plain_type frame_type }
{
    ListedType {
        frame_type,
        targets: Items::new(alloc),
    }
}

fn new_type(alloc: Global, pc: u16) -> Result<ListedType, AllocError>
    ensures { IfOk result (λ t. t ≡ spec.new_type pc) }
{
    let mut targets = Items::new(alloc);
    targets.push(pc)?;
    Ok(ListedType {
        frame_type: FrameType::New(label_of(alloc, pc)?),
        targets,
    })
}

fn object_at<'a>(
    alloc: Global,
    pool: &[Const],
    bytes: &'a [u8],
) -> Result<(ListedType, &'a [u8]), LineError>
    ensures { Reads result (spec.object_at pool.now bytes.now) }
{
    let (index, rest) = u2_at(bytes)?;
    let name = class_at(alloc, pool, index)?;
    Ok((plain_type(alloc, FrameType::Ref(name)), rest))
}

fn new_at(alloc: Global, bytes: &[u8]) -> Result<(ListedType, &[u8]), LineError>
    ensures { Reads result (spec.new_at bytes.now) }
{
    let (pc, rest) = u2_at(bytes)?;
    Ok((new_type(alloc, pc)?, rest))
}

fn type_by<'a>(
    alloc: Global,
    pool: &[Const],
    tag: u8,
    bytes: &'a [u8],
) -> Result<(ListedType, &'a [u8]), LineError>
    ensures { Reads result (spec.type_by pool.now tag bytes.now) }
{
    match tag {
        0 => Ok((plain_type(alloc, FrameType::Top), bytes)),
        1 => Ok((plain_type(alloc, FrameType::Int), bytes)),
        4 => Ok((plain_type(alloc, FrameType::Long), bytes)),
        5 => Ok((plain_type(alloc, FrameType::Null), bytes)),
        6 => Ok((plain_type(alloc, FrameType::This), bytes)),
        7 => object_at(alloc, pool, bytes),
        8 => new_at(alloc, bytes),
        _ => Err(LineError::Bad),
    }
}

fn type_at<'a>(
    alloc: Global,
    pool: &[Const],
    bytes: &'a [u8],
) -> Result<(ListedType, &'a [u8]), LineError>
    ensures { Reads result (spec.type_at pool.now bytes.now) }
{
    let (tag, rest) = u1_at(bytes)?;
    type_by(alloc, pool, tag, rest)
}

impl Types {
    fn new(alloc: Global) -> Self
        ensures { spec.seen_types result ≡ spec.no_types }
    {
        Types {
            types: Items::new(alloc),
            named: Vec::new(alloc),
        }
    }

    fn push(&mut self, listed: ListedType) -> Result<(), AllocError>
        ensures { OnOk result
            (spec.seen_types self.new ≡ spec.with_type (spec.seen_types self.old) listed) }
    {
        let ListedType {
            frame_type,
            targets,
        } = listed;
        self.types.push(frame_type)?;
        self.named.extend_from_slice(&targets)?;
        Ok(())
    }
}

fn one_type<'a>(
    alloc: Global,
    types: &mut Types,
    pool: &[Const],
    bytes: &'a [u8],
) -> Result<&'a [u8], LineError>
    ensures { GoesOn result (spec.seen_types types.new)
        (spec.one_type pool.now (spec.seen_types types.old) bytes.now) }
{
    let (listed, rest) = type_at(alloc, pool, bytes)?;
    types.push(listed)?;
    Ok(rest)
}

fn counted_types<'a>(
    alloc: Global,
    pool: &[Const],
    count: u16,
    bytes: &'a [u8],
) -> Result<(Types, &'a [u8]), LineError>
    ensures { GivesBy (λ x. (spec.seen_types x.0, x.1.now)) result
        (repeat (spec.one_type pool.now) count spec.no_types bytes.now) }
{
    let mut types = Types::new(alloc);
    let mut rest = bytes;
    for _ in 0..count {
        rest = one_type(alloc, &mut types, pool, rest)?;
    }
    Ok((types, rest))
}

fn types_at<'a>(
    alloc: Global,
    pool: &[Const],
    bytes: &'a [u8],
) -> Result<(Types, &'a [u8]), LineError>
    ensures { GivesBy (λ x. (spec.seen_types x.0, x.1.now)) result
        (spec.types_at pool.now bytes.now) }
{
    let (count, rest) = u2_at(bytes)?;
    counted_types(alloc, pool, count, rest)
}

fn frame_pc(next: u32, delta: u16) -> Result<u16, LineError>
    ensures { Gives result (spec.frame_pc next delta) }
{
    let pc = next as u64 + delta as u64;
    if pc > 65_535 {
        return Err(LineError::Bad);
    }
    Ok(pc as u16)
}

// The delta of a full frame.
fn full_frame(bytes: &[u8]) -> Result<(u16, &[u8]), LineError>
    ensures { Reads result (spec.full_frame bytes.now) }
{
    let (tag, rest) = u1_at(bytes)?;
    if tag != 255 {
        return Err(LineError::Bad);
    }
    u2_at(rest)
}

fn frame_of(pc: u16, locals: Types, stack: Types) -> Result<ListedFrame, AllocError>
    ensures { IfOk result (λ f. spec.seen_frame f
        ≡ spec.frame_of pc (spec.seen_types locals) (spec.seen_types stack)) }
{
    let Types {
        types: locals,
        mut named,
    } = locals;
    let Types {
        types: stack,
        named: more,
    } = stack;
    named.extend_from_slice(&more)?;
    Ok(ListedFrame {
        frame: PlacedLine {
            pc,
            line: Line::Frame { locals, stack },
        },
        named,
    })
}

fn frame_at<'a>(
    alloc: Global,
    pool: &[Const],
    next: u32,
    bytes: &'a [u8],
) -> Result<(ListedFrame, &'a [u8]), LineError>
    ensures { GivesBy (λ x. (spec.seen_frame x.0, x.1.now)) result
        (spec.frame_at pool.now next bytes.now) }
{
    let (delta, rest) = full_frame(bytes)?;
    let pc = frame_pc(next, delta)?;
    let (locals, rest) = types_at(alloc, pool, rest)?;
    let (stack, rest) = types_at(alloc, pool, rest)?;
    Ok((frame_of(pc, locals, stack)?, rest))
}

/// The frames so far, and the pc that a delta of 0 tells.
#[derive(Drop)]
struct FramesSoFar {
    found: Found,
    next: u32,
}

impl FramesSoFar {
    fn new(alloc: Global) -> Self
        ensures { spec.framed result ≡ spec.unframed }
    {
        FramesSoFar {
            found: Found::new(alloc),
            next: 0,
        }
    }

    fn push(&mut self, listed: ListedFrame) -> Result<(), AllocError>
        ensures { OnOk result (spec.framed self.new
            ≡ spec.with_frame (spec.framed self.old) (spec.seen_frame listed)) }
    {
        let ListedFrame { frame, named } = listed;
        self.next = frame.pc as u32 + 1;
        self.found.lines.push(frame)?;
        self.found.named.extend_from_slice(&named)?;
        Ok(())
    }
}

fn one_frame<'a>(
    alloc: Global,
    so_far: &mut FramesSoFar,
    pool: &[Const],
    bytes: &'a [u8],
) -> Result<&'a [u8], LineError>
    ensures { GoesOn result (spec.framed so_far.new)
        (spec.one_frame pool.now (spec.framed so_far.old) bytes.now) }
{
    let (listed, rest) = frame_at(alloc, pool, so_far.next, bytes)?;
    so_far.push(listed)?;
    Ok(rest)
}

fn frames_at<'a>(
    alloc: Global,
    pool: &[Const],
    count: u16,
    bytes: &'a [u8],
) -> Result<(FramesSoFar, &'a [u8]), LineError>
    ensures { GivesBy (λ x. (spec.framed x.0, x.1.now)) result
        (repeat (spec.one_frame pool.now) count spec.unframed bytes.now) }
{
    let mut so_far = FramesSoFar::new(alloc);
    let mut rest = bytes;
    for _ in 0..count {
        rest = one_frame(alloc, &mut so_far, pool, rest)?;
    }
    Ok((so_far, rest))
}

/// The frames of a map, which are all of its bytes. `Bad`: one isn't full, or has no line.
pub fn map_lines(alloc: Global, pool: &[Const], bytes: &[u8]) -> Result<Found, LineError>
    ensures { GivesBy codes.seen result (spec.map_lines pool.now bytes.now) }
{
    let (count, rest) = u2_at(bytes)?;
    let (so_far, rest) = frames_at(alloc, pool, count, rest)?;
    ended(so_far.found, rest)
}
