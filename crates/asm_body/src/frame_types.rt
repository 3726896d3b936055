//! The types of a frame, with their classes in the pool.

ghost use Rattle.std.specs.Prelude.{◌≡◌, [], IfOk};
ghost use Rattle.asm_pool.specs.Mentions as pools;
ghost use Rattle.asm_pool.specs.Places.{IsPool};
ghost use Rattle.asm_body.specs.FrameTypes as spec;
ghost use Rattle.asm_body.specs.FrameTypes.{GivesPooled};

use crate::mention::line_error;
use crate::placed::PlacedType;
use asm_pool::Pool;
use asm_text::{FrameType, LineError, Name};
use items::Items;
use std::alloc::{AllocError, Global};

fn copy_of(alloc: Global, name: &[u8]) -> Result<Name, AllocError>
    ensures { IfOk result (λ copy. copy ≡ name.now) }
{
    Ok(Name::from(Vec::from_slice(alloc, name)?))
}

fn object(pool: &mut Pool, name: &[u8]) -> Result<PlacedType, LineError>
    requires { IsPool pool.old }
    ensures { GivesPooled result pool.new (spec.object (pools.class name.now pool.old.entries)) }
{
    match pool.class(name) {
        Ok(index) => Ok(PlacedType::Object(index)),
        Err(error) => Err(line_error(error)),
    }
}

fn type_of(alloc: Global, pool: &mut Pool, frame_type: &FrameType) -> Result<PlacedType, LineError>
    requires { IsPool pool.old }
    ensures { GivesPooled result pool.new (spec.type_of frame_type.now pool.old.entries) }
{
    match frame_type {
        FrameType::Top => Ok(PlacedType::Top),
        FrameType::Int => Ok(PlacedType::Int),
        FrameType::Long => Ok(PlacedType::Long),
        FrameType::Null => Ok(PlacedType::Null),
        FrameType::This => Ok(PlacedType::This),
        FrameType::New(label) => Ok(PlacedType::New(copy_of(alloc, label)?)),
        FrameType::Ref(name) => object(pool, name),
    }
}

/// The types of a frame; their classes come into the pool in the order of the types. `Bad`: a class has no place in the
/// pool.
pub fn types_of(
    alloc: Global,
    pool: &mut Pool,
    types: &[FrameType],
) -> Result<Items<PlacedType>, LineError>
    requires { IsPool pool.old }
    ensures { GivesPooled result pool.new
        (spec.types_behind [] types.now pool.old.entries) }
{
    let mut placed = Items::new(alloc);
    for frame_type in types {
        placed.push(type_of(alloc, pool, frame_type)?)?;
    }
    Ok(placed)
}
