//! The numbers of the names and array types of a world.

ghost use Rattle.std.specs.Prelude.{◌≡◌, IfOk};
ghost use Rattle.link_model.specs.Infos.{codes_of};
ghost use Rattle.link_tables.specs.Parts.{AreNumbers};

use items::NoMemory;
use link_model::{ArrayType, MethodCode};
use link_numbers::{ArrayNumbers, KnownClasses, Numbering, all_arrays};
use link_resolution::Hierarchy;
use std::alloc::Global;

/// The names and array types of a world by number, and the numbers of the classes that the machine knows by name.
#[derive(Drop)]
pub(crate) struct NumberTables {
    pub(crate) numbers: ArrayNumbers,
    pub(crate) arrays: Vec<ArrayType>,
    pub(crate) known: KnownClasses,
}

/// Those of a program with these codes.
pub(crate) fn number_tables(
    alloc: Global,
    world: &Hierarchy,
    codes: &[Option<MethodCode>],
) -> Result<NumberTables, NoMemory>
    requires { codes.now ≡ codes_of world.now }
    ensures { IfOk result (AreNumbers world.now) }
{
    let numbering = Numbering::new(alloc, world, codes)?;
    let numbers = ArrayNumbers::new(alloc, numbering)?;
    let known = KnownClasses::new(alloc, numbers.names())?;
    let arrays = all_arrays(alloc, numbers.depths())?;
    Ok(NumberTables {
        numbers,
        arrays,
        known,
    })
}
