//! The stack map of a body (JVMS 4.7.4).

ghost use Rattle.std.specs.Prelude.{◌≡◌, ◌++◌, [], length, OnOk, None};
ghost use Rattle.asm_code.specs.Encoding.{Puts, u2};
ghost use Rattle.asm_code.specs.Places.{place_of};
ghost use Rattle.asm_body.specs.Bodies as spec;
ghost use Rattle.asm_body.specs.Bodies.{AnswersBy};

use crate::code::at_line;
use crate::error::BodyError;
use crate::placed::{PlacedFrame, PlacedType};
use asm_code::Labels;
use asm_text::LineError;
use std::alloc::{AllocError, Global};

fn put_u2(map: &mut Vec<u8>, n: u16) -> Result<(), AllocError>
    ensures { OnOk result (map.new.items ≡ map.old.items ++ u2 n) }
{
    map.extend_from_slice(&n.to_be_bytes())
}

fn put_tag(map: &mut Vec<u8>, tag: u8) -> Result<(), LineError>
    ensures { Puts result map.new.items (spec.tagged tag map.old.items) }
{
    map.push(tag)?;
    Ok(())
}

fn put_tagged(map: &mut Vec<u8>, tag: u8, n: u16) -> Result<(), LineError>
    ensures { Puts result map.new.items (spec.tagged_u2 tag n map.old.items) }
{
    map.push(tag)?;
    put_u2(map, n)?;
    Ok(())
}

fn put_new(map: &mut Vec<u8>, labels: &Labels, label: &[u8]) -> Result<(), LineError>
    ensures { Puts result map.new.items
        (spec.with_new (place_of labels.now) label.now map.old.items) }
{
    let place = labels.place(label).ok_or(LineError::Bad)?;
    put_tagged(map, 8, place)
}

fn put_type(map: &mut Vec<u8>, labels: &Labels, kind: &PlacedType) -> Result<(), LineError>
    ensures { Puts result map.new.items
        (spec.with_type (place_of labels.now) kind.now map.old.items) }
{
    match kind {
        PlacedType::Top => put_tag(map, 0),
        PlacedType::Int => put_tag(map, 1),
        PlacedType::Long => put_tag(map, 4),
        PlacedType::Null => put_tag(map, 5),
        PlacedType::This => put_tag(map, 6),
        PlacedType::New(label) => put_new(map, labels, label),
        PlacedType::Object(index) => put_tagged(map, 7, *index),
    }
}

fn put_types(map: &mut Vec<u8>, labels: &Labels, types: &[PlacedType]) -> Result<(), LineError>
    ensures { Puts result map.new.items
        (spec.with_types (place_of labels.now) types.now map.old.items) }
{
    for kind in types {
        put_type(map, labels, kind)?;
    }
    Ok(())
}

fn put_counted(map: &mut Vec<u8>, labels: &Labels, types: &[PlacedType]) -> Result<(), LineError>
    ensures { Puts result map.new.items
        (spec.with_counted (place_of labels.now) types.now map.old.items) }
{
    if types.len() > 65_535 {
        return Err(LineError::Bad);
    }
    put_u2(map, types.len() as u16)?;
    put_types(map, labels, types)
}

// What is told of the place of a frame behind another.
fn delta_of(before: Option<u16>, pc: u16) -> Option<u16>
    ensures { result ≡ spec.delta_of before pc }
{
    match before {
        None => Some(pc),
        Some(before) => {
            if before < pc {
                Some(pc - before - 1)
            } else {
                None
            }
        }
    }
}

fn put_frame(
    map: &mut Vec<u8>,
    labels: &Labels,
    before: Option<u16>,
    frame: &PlacedFrame,
) -> Result<(), LineError>
    ensures { Puts result map.new.items
        (spec.with_frame (place_of labels.now) before frame.now map.old.items) }
{
    let delta = delta_of(before, frame.pc).ok_or(LineError::Bad)?;
    map.push(255)?;
    put_u2(map, delta)?;
    put_counted(map, labels, &frame.locals)?;
    put_counted(map, labels, &frame.stack)
}

fn put_frame_line(
    map: &mut Vec<u8>,
    labels: &Labels,
    before: Option<u16>,
    frame: &PlacedFrame,
) -> Result<(), BodyError>
    ensures { AnswersBy (λ done. map.new.items) result
        (spec.put_frame (place_of labels.now) before frame.now map.old.items) }
{
    match put_frame(map, labels, before, frame) {
        Ok(()) => Ok(()),
        Err(error) => Err(at_line(frame.line, error)),
    }
}

/// The bytes of the frames, without their count.
pub fn stack_map_of(
    alloc: Global,
    labels: &Labels,
    frames: &[PlacedFrame],
) -> Result<Vec<u8>, BodyError>
    ensures { AnswersBy (λ map. map.items) result
        (spec.put_frames (place_of labels.now) None frames.now []) }
{
    let mut map = Vec::new(alloc);
    let mut before = None;
    for frame in frames {
        put_frame_line(&mut map, labels, before, frame)?;
        before = Some(frame.pc);
    }
    Ok(map)
}
