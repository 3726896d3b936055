//! Verification types (JVMS 4.7.4).

ghost use Rattle.std.specs.Prelude.{◌≡◌, ◌++◌};
ghost use Rattle.byte_reader.specs.Reader.{Reads, map_value, many};
ghost use Rattle.stack_maps.specs.Readers.{type_at, types_at};

use crate::error::MapWhy;
use crate::types::VType;
use byte_reader::{Stop, u1_of, u2_of};
use items::Items;
use std::alloc::Global;

/// A verification type.
#[tactic(auto, unfolding(crate::specs::Readers::type_at))]
pub fn type_of(bytes: &[u8]) -> Result<(VType, &[u8]), Stop<MapWhy>>
    ensures { Reads result (type_at bytes.now) }
{
    let (tag, rest) = u1_of(bytes)?;
    match tag {
        0 => Ok((VType::Top, rest)),
        1 => Ok((VType::Int, rest)),
        2 => Ok((VType::Float, rest)),
        3 => Ok((VType::Double, rest)),
        4 => Ok((VType::Long, rest)),
        5 => Ok((VType::Null, rest)),
        6 => Ok((VType::UninitThis, rest)),
        7 => {
            let (class, rest) = u2_of(rest)?;
            Ok((VType::Object(class), rest))
        }
        8 => {
            let (new, rest) = u2_of(rest)?;
            Ok((VType::Uninit(new), rest))
        }
        _ => Err(Stop::at(bytes, MapWhy::Tag)),
    }
}

/// That many verification types, after those that there are.
pub fn more_types(
    mut types: Items<VType>,
    count: u16,
    bytes: &[u8],
) -> Result<(Items<VType>, &[u8]), Stop<MapWhy>>
    ensures { Reads result (map_value (λ more. types ++ more) (many type_at count) bytes.now) }
{
    let mut rest = bytes;
    for _ in 0..count {
        let (one, behind) = type_of(rest)?;
        types.push(one)?;
        rest = behind;
    }
    Ok((types, rest))
}

/// A count, and that many verification types.
pub fn types_of(alloc: Global, bytes: &[u8]) -> Result<(Items<VType>, &[u8]), Stop<MapWhy>>
    ensures { Reads result (types_at bytes.now) }
{
    let (count, rest) = u2_of(bytes)?;
    more_types(Items::new(alloc), count, rest)
}
