//! The classes of the elements of arrays.

ghost use Rattle.std.specs.Prelude.{◌≡◌, ◌∷◌, ◌++◌, [], map, IfOk, OnOk};
ghost use Rattle.ref_model.specs.Classes as classes;
ghost use Rattle.runtime_program.specs.Arrays.{inner_class};

use items::NoMemory;
use link_model::ArrayType;
use link_tables::Tables;
use std::alloc::Global;

/// The type of the elements of an array.
pub(crate) fn element_of(array: ArrayType) -> ArrayType
    ensures { result ≡ classes.element_of array }
{
    ArrayType {
        dimensions: array.dimensions.saturating_sub(1),
        base: array.base,
    }
}

// Adds the class of the elements of an array.
fn add_inner_class(
    inner: &mut Vec<Option<u32>>,
    tables: &Tables,
    array: ArrayType,
) -> Result<(), NoMemory>
    ensures { OnOk result (inner.new.items ≡ inner.old.items ++ inner_class tables.now array ∷ []) }
{
    inner.push(tables.array_class(element_of(array)))?;
    Ok(())
}

/// The classes of the elements of all array classes, where they are array classes, in the order of their numbers.
pub(crate) fn all_inner_classes(
    alloc: Global,
    tables: &Tables,
) -> Result<Vec<Option<u32>>, NoMemory>
    ensures { IfOk result (λ v. v.items ≡ map (inner_class tables.now) tables.now.arrays) }
{
    let mut inner = Vec::new(alloc);
    for array in tables.arrays() {
        add_inner_class(&mut inner, tables, *array)?;
    }
    Ok(inner)
}
