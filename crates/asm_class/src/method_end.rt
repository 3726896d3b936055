//! The end of a method with code.

ghost use Rattle.std.specs.Prelude.{◌≡◌, ◌<◌, ◌≤◌, ◌+◌, ◌*◌, ◌^◌, IfOk};
ghost use Rattle.std.specs.Prelude.{◌∷◌, ◌++◌, [], None, length};
ghost use Rattle.asm_code.specs.Encoding.{u2};
ghost use Rattle.asm_code.specs.Places.{place_of};
ghost use Rattle.asm_body.specs.Bodies as bodies;
ghost use Rattle.asm_body.specs.Bodies.{AnswersBy};
ghost use Rattle.asm_pool.specs.Places.{IsPool};
ghost use Rattle.asm_class.specs.States.{StepsOrNames, state_of};
ghost use Rattle.asm_class.specs.Ends as spec;

use crate::assembly::{Assembly, BodyParts};
use asm_body::{BodyError, PlacedFrame, code_of, rows_of, stack_map_of};
use asm_code::Labels;
use class_model::{Attribute, Body, CodeAttribute, CodeBody, CodeExtra, Row};
use items::{Boxed, Items};
use shared_slices::SharedSlice;
use std::alloc::{AllocError, Global};

/// The most frames of a stack map (JVMS 4.7.4).
const MOST_FRAMES: usize = 65_535;

/// The most bytes of an attribute (JVMS 4.7).
const MOST_BYTES: usize = 0xffff_ffff;

// Of two errors that of the earlier line.
fn earlier(error: BodyError, other: BodyError) -> BodyError
    ensures { result ≡ spec.earlier error other }
{
    match (error, other) {
        (BodyError::Bad { line }, BodyError::Bad { line: another }) => BodyError::Bad {
            line: line.min(another),
        },
        _ => BodyError::NoMemory,
    }
}

// The bytes of the code and of the frames.
fn code_and_map(
    alloc: Global,
    body: &BodyParts,
    labels: &Labels,
) -> Result<(Vec<u8>, Vec<u8>), BodyError>
    ensures { AnswersBy (λ made. (made.0.items, made.1.items)) result
        (spec.both (bodies.put_all (place_of labels.now) body.now.instructions.placed [])
        (bodies.put_frames (place_of labels.now) None body.now.frames [])) }
{
    let code = code_of(alloc, labels, &body.instructions.placed);
    let map = stack_map_of(alloc, labels, &body.frames);
    match (code, map) {
        (Ok(code), Ok(map)) => Ok((code, map)),
        (Ok(_), Err(error)) => Err(error),
        (Err(error), Ok(_)) => Err(error),
        (Err(error), Err(other)) => Err(earlier(error, other)),
    }
}

// How many bytes the attribute has, with those of the map.
fn attribute_size(size: u16, rows: usize, map: usize) -> u64
    requires rows { rows < 2 ^ 32 }
    requires map { map < 2 ^ 32 }
    ensures { result ≡ size + 8 * rows + map + 20 }
{
    u64::from(size) + 8 * rows as u64 + map as u64 + 20
}

// Whether there is an instruction, the frames have a count in two bytes, and the attribute a size in four.
fn is_code(size: u16, frames: &[PlacedFrame], rows: &[Row], map: &[u8]) -> bool
    ensures { result ≡ spec.is_code size frames.now rows.now map.now }
{
    if size == 0 || frames.len() > MOST_FRAMES {
        return false;
    }
    if rows.len() > MOST_BYTES || map.len() > MOST_BYTES {
        return false;
    }
    attribute_size(size, rows.len(), map.len()) <= MOST_BYTES as u64
}

// The frames with their count in front of them.
fn counted(alloc: Global, count: u16, frames: &[u8]) -> Result<SharedSlice<u8>, AllocError>
    ensures { IfOk result (λ map. map ≡ u2 count ++ frames.now) }
{
    let mut map = Vec::with_capacity(alloc, frames.len().saturating_add(2))?;
    map.extend_from_slice(&count.to_be_bytes())?;
    map.extend_from_slice(frames)?;
    SharedSlice::new(alloc, map)
}

// The stack map of a code that has frames.
fn maps_of(
    alloc: Global,
    name: u16,
    frames: &[PlacedFrame],
    map: &[u8],
) -> Result<Items<CodeAttribute>, AllocError>
    requires { length frames.now ≤ 65535 }
    ensures { IfOk result (λ attributes. attributes ≡ spec.maps_of name frames.now map.now) }
{
    let mut attributes = Items::new(alloc);
    if frames.is_empty() {
        return Ok(attributes);
    }
    let map = counted(alloc, frames.len() as u16, map)?;
    attributes.push(CodeAttribute {
        name,
        body: CodeExtra::StackMap(map),
    })?;
    Ok(attributes)
}

// The code with all that belongs to it.
fn code_body(
    alloc: Global,
    body: &BodyParts,
    code: Vec<u8>,
    map: &[u8],
    rows: Items<Row>,
) -> Result<CodeBody, AllocError>
    requires { length body.now.frames ≤ 65535 }
    ensures { IfOk result (λ made. made ≡ spec.code_body body.now code.items map.now rows) }
{
    let attributes = maps_of(alloc, body.map_name, &body.frames, map)?;
    Ok(CodeBody {
        max_stack: body.max_stack,
        max_locals: body.max_locals,
        code: SharedSlice::new(alloc, code)?,
        rows,
        attributes,
    })
}

// The body that ends at the line.
fn body_of(
    alloc: Global,
    line: u32,
    body: &BodyParts,
    labels: &Labels,
) -> Result<CodeBody, BodyError>
    ensures { AnswersBy (λ made. made) result
        (spec.body_of line body.now (place_of labels.now)) }
{
    let (code, map) = code_and_map(alloc, body, labels)?;
    let size = body.instructions.size;
    let rows = rows_of(alloc, labels, size as u32, &body.rows)?;
    if !is_code(size, &body.frames, &rows, &map) {
        return Err(BodyError::Bad { line });
    }
    Ok(code_body(alloc, body, code, &map, rows)?)
}

// The attributes of a method with this code.
fn attributes_of(alloc: Global, name: u16, body: CodeBody) -> Result<Items<Attribute>, AllocError>
    ensures { IfOk result (λ attributes. attributes ≡ spec.code_attribute name body ∷ []) }
{
    let mut attributes = Items::new(alloc);
    attributes.push(Attribute {
        name,
        body: Body::Code(Boxed::new(alloc, body)?),
    })?;
    Ok(attributes)
}

impl Assembly {
    /// The end of a method with code, in this line.
    pub fn code_end(&mut self, alloc: Global, line: u32) -> Result<(), BodyError>
        requires { IsPool self.old.pool }
        ensures { StepsOrNames result self.new (spec.code_end line (state_of self.old)) }
    {
        if self.body.frame_waits {
            return Err(BodyError::Bad { line });
        }
        let body = body_of(alloc, line, &self.body, &self.labels)?;
        let attributes = attributes_of(alloc, self.method.code, body)?;
        self.add_method(attributes)?;
        Ok(())
    }
}
