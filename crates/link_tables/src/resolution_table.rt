//! The table of what constants mean, by number. It begins with what names nothing, and with the arrays that newarray makes.

ghost use Rattle.std.specs.Prelude.{◌≡◌, Some, IfOk, OnOk, slice_get};
ghost use Rattle.link_tables.specs.Linkings.{linking_in};
ghost use Rattle.link_tables.specs.ResolutionTables as spec;
ghost use Rattle.link_tables.specs.ResolutionTables.{Begins, Extends};

use crate::sites::{Linker, PLAIN, class_resolution};
use items::NoMemory;
use link_model::Resolution;
use link_numbers::array_of_primitive;
use opcodes::Primitive;
use std::alloc::Global;

/// The number of what names nothing.
pub(crate) const PLAIN_NUMBER: u32 = 0;

// The primitives, in the order of the numbers of their arrays.
const PRIMITIVES: [Primitive; 8] = [
    Primitive::Boolean,
    Primitive::Char,
    Primitive::Float,
    Primitive::Double,
    Primitive::Byte,
    Primitive::Short,
    Primitive::Int,
    Primitive::Long,
];

/// The number of the array of a primitive.
pub(crate) fn primitive_number(primitive: Primitive) -> u32
    ensures { result ≡ spec.primitive_number primitive }
{
    match primitive {
        Primitive::Boolean => 1,
        Primitive::Char => 2,
        Primitive::Float => 3,
        Primitive::Double => 4,
        Primitive::Byte => 5,
        Primitive::Short => 6,
        Primitive::Int => 7,
        Primitive::Long => 8,
    }
}

// The array of a primitive.
fn primitive_resolution(l: Linker, primitive: Primitive) -> Resolution
    ensures { result ≡ spec.primitive_resolution (linking_in l.entry) primitive }
{
    class_resolution(l.numbers.array_number(&array_of_primitive(primitive)))
}

/// The table with which a program begins.
pub(crate) fn first_resolutions(alloc: Global, l: Linker) -> Result<Vec<Resolution>, NoMemory>
    ensures { IfOk result (λ table. Begins (linking_in l.entry) table.items) }
{
    let mut table = Vec::new(alloc);
    table.push(PLAIN)?;
    for primitive in PRIMITIVES {
        table.push(primitive_resolution(l, primitive))?;
    }
    Ok(table)
}

/// Adds what a constant means, and gives its number. Numbers from 2^32 on count as memory run out.
pub(crate) fn add_resolution(
    table: &mut Vec<Resolution>,
    resolution: Resolution,
) -> Result<u32, NoMemory>
    ensures number { IfOk result (λ n. slice_get table.new.items n ≡ Some resolution) }
    ensures extends { OnOk result (Extends table.old.items table.new.items) }
{
    let number = u32::try_from(table.len()).map_err(|_| NoMemory)?;
    table.push(resolution)?;
    Ok(number)
}
